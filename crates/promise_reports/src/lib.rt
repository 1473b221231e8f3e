// What a call tells in its report area. There is no code here: definitions in specs/, theorems in proofs/.
#![tactic(auto)]
