// The books of a trace: what each call of a record says of the messages that are held, the lines that are written of them, and the sentences
// about links that went out.
#![tactic(auto)]

pub mod asked;
pub mod brought;
pub mod cause;
pub mod changeover;
pub mod take;
