// The fates of every call of every run. There is no code here: definitions in specs/, theorems in proofs/.
#![tactic(auto)]
