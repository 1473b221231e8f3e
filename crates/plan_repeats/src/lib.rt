// What a statement repeats: whether something is taken already.
#![tactic(auto)]

pub mod taken;
