// What the program does with a line: one of an opening under way, or a call on its store.
#![tactic(auto)]

pub mod opening;
pub mod respond;
pub mod take;
