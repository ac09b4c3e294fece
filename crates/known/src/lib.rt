// The known boards M1 to M10 of document 01, a spoiled table and texts, stated of the rules in specs/ and proved in proofs/: no function here.

#![tactic(auto)]
