// The calls that open and edit a store. No exported call has a `requires`; a refused one changes nothing.
#![tactic(auto)]

pub mod edit;
pub mod open;
pub mod put;
