// One entry more in a table of the plan.
#![tactic(auto)]

pub mod insert;
