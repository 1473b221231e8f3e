// What is held of each message until it leaves. There is no code here: definitions in specs/, theorems in proofs/.
#![tactic(auto)]
