// What a configuration says: the plan, and where a destination stands in it.
#![tactic(auto)]

pub mod data;
pub mod find;
