// Turned grids have the same best score: definitions in specs/, laws in proofs/, no code.

#![tactic(auto)]
