// That what a configuration gives fits together. There is no code here: definitions in specs/, theorems in proofs/.
#![tactic(auto)]
