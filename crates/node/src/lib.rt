// The node: one entry for every event, and one for every question.
#![tactic(auto)]

pub mod ask;
pub mod call;
