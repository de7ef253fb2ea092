// Tokens of bracket lines: read at a position of a lent slice, written at a position of a lent run.
#![tactic(auto)]

pub mod read;
pub mod write;
