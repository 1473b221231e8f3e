// What becomes of a queue that is cleared. There is no code here: definitions in specs/, theorems in proofs/.
#![tactic(auto)]
