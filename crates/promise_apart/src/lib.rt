// The messages held apart while T6 runs, and what its end does with them. There is no code here: definitions in specs/, theorems in proofs/.
#![tactic(auto)]
