// Column elimination for eight rows at once: definitions in specs/, laws in proofs/, no code.

#![tactic(auto)]
