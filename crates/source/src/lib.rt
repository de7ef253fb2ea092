// Source density.rs, with its own order of operations: density and volumes.
#![tactic(auto)]

pub mod density;
pub mod volume;
