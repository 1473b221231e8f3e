// The faults of a configuration, for every line and every text. There is no code here: definitions in specs/, theorems in proofs/.
#![tactic(auto)]
