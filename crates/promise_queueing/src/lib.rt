// How many messages are held at once, when the node makes one, and how a new one joins its queue. There is no code here: definitions in specs/, theorems in proofs/.
#![tactic(auto)]
