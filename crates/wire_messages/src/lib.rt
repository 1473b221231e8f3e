// The nine messages of signalling network management, and how they are read; `wire_writing` writes them.
#![tactic(auto)]

pub mod management;
