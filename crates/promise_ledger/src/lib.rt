// Where every message is: held, gone with a report, or retired. There is no code here: definitions in specs/, theorems in proofs/.
#![tactic(auto)]
