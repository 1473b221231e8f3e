// What is sent again where nothing tells what the far end took, and what may arrive twice. There is no code here: definitions in specs/, theorems in proofs/.
#![tactic(auto)]
