// Demand 3 of a call that takes a link out, in one place. There is no code here: definitions in specs/, theorems in proofs/.
#![tactic(auto)]
