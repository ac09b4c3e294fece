// The eight rotations and reflections of a grid: definitions in specs/, laws in proofs/, no code.

#![tactic(auto)]
