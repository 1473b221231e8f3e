// A shift run again: the calls of a record, and what each answers.
#![tactic(auto)]

pub mod run;
