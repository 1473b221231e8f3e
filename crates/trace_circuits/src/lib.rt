// A message that a trace keeps, and the circuit that it is about.
#![tactic(auto)]

pub mod circuit;
pub mod message;
