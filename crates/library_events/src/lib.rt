// The node as a C program links it, a function for each event over the plan and the areas, all lent: links, messages that come, expiries. The
// calls beside it are `library_sending`, `library_clocks` and `library_texts`.
#![tactic(auto)]

pub mod expiries;
pub mod links;
pub mod messages;
