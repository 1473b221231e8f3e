// The plan as words, which calls read and a configuration writes.
#![tactic(auto)]

pub mod find;
pub mod read;
