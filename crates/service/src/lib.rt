// Jobs of any kind over lent memory, and what a list of calls comes to: definitions in specs/, laws in proofs/, no code.

#![tactic(auto)]
