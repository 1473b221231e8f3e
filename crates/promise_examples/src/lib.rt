// The paper's twelve examples. There is no code here: the table in specs/, the theorem over it in proofs/.
#![tactic(auto)]
