// Texts of lines and fields: their parts found, and octets put into an area. No function asks anything of what it is given:
// places past the end, areas too short and octets of any kind have their answer.
#![tactic(auto)]

pub mod part;
pub mod put;
