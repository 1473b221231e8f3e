// What a trace keeps of the messages that a node holds, in rows of numbers.
#![tactic(auto)]

pub mod circuit;
pub mod held;
pub mod order;
