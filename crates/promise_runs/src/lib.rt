// What holds of the node over any run of calls. There is no code here: definitions in specs/, theorems in proofs/.
#![tactic(auto)]
