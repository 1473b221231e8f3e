// What became of messages by a call: decided, and written line by line.
#![tactic(auto)]

pub mod deciding;
pub mod telling;
