// When a row of a table is given. There is no code here: definitions in specs/, theorems in proofs/.
#![tactic(auto)]
