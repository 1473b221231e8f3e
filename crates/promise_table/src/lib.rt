// The paper's table of replies, for every event. There is no code here: definitions in specs/, theorems in proofs/.
#![tactic(auto)]
