// A configuration read: its text, line by line, into a plan.
#![tactic(auto)]

pub mod configure;
