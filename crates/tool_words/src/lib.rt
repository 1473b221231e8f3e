// Lines of a text by their number, and the words of replies, reasons and faults, which stand in such texts.
#![tactic(auto)]

pub mod lines;
pub mod words;
