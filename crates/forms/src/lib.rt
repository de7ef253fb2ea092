// The bench program's lines: each form read as a token of a line, and a whole line's meaning.
#![tactic(auto)]

pub mod line;
pub mod parts;
pub mod read;
