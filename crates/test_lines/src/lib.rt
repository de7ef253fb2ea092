// The lines of the program test_store: a call read from its line, and the words of a call's answer on standard output.
// What they say is held to the file stdout of crates/test_store by the program's run.
#![tactic(auto)]

pub mod answers;
pub mod digest;
pub mod line;
pub mod script;
