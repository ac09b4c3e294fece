// Row elimination over any kind of job: definitions in specs/, laws in proofs/, no code.

#![tactic(auto)]
