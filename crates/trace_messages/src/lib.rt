// What the lines of a page tell of messages, and the line that a trace writes of each.
#![tactic(auto)]

pub mod fate;
pub mod kind;
pub mod told;
