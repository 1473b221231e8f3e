// Forced and controlled rerouting carried out: transfer prohibited and allowed, and the timers T6 and T10.
#![tactic(auto)]

pub mod timer;
pub mod transfer;
