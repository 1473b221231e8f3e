// Going round a set: the walking rule's table.
#![tactic(auto)]

pub mod table;
