// The reader of a store's lines, which checks all of them before it writes.
#![tactic(auto)]

pub mod lines;
pub mod read;
