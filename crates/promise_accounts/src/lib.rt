// What becomes of every message over a run of calls. There is no code here: definitions in specs/, theorems in proofs/.
#![tactic(auto)]
