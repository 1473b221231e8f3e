// Octets on the wire: SIO and label of every message.
#![tactic(auto)]

pub mod header;
