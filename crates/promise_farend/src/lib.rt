// What the far end of a link took, and what becomes of the rest. There is no code here: definitions in specs/, theorems in proofs/.
#![tactic(auto)]
