// The board that a job of each kind comes to, what its units do to the lent table and board, and the claim over every list of calls: definitions in
// specs/, laws in proofs/, no code.

#![tactic(auto)]
