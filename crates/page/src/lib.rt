// The wall page: a line of 64 characters for each filled place, and one with the total. The call has no `requires`; a
// refused one changes nothing.
#![tactic(auto)]

pub mod call;
pub mod lines;
pub mod masses;
