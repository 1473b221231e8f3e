// The store: 256 slots, each in one of 35 rings, from its beginning on.
#![tactic(auto)]

pub mod fresh;
