// The route list: which link each destination and SLS has.
#![tactic(auto)]

pub mod list;
