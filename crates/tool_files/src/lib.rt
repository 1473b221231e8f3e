// What the programs of a shift share: their arguments, files that are read and written in large pieces, the exit status, what went wrong, and how far a
// run is.
#![tactic(auto)]

pub mod arguments;
pub mod complaint;
pub mod file;
pub mod help;
pub mod program;
pub mod progress;
pub mod status;
pub mod target;
pub mod writer;
