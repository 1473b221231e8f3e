// What a run writes of a call or a question.
#![tactic(auto)]

pub mod answer;
pub mod view;
