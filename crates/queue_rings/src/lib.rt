// The rings, in areas that the host lends: 35 queues of slots. Rings 0 to 31 are the links', 32 that of the messages held apart,
// 33 and 34 those of the free user and the free management slots.
#![tactic(auto)]

pub mod ring;
