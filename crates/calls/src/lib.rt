// A call on the program's store, and its answer as a line.
#![tactic(auto)]

pub mod answer;
pub mod call;
