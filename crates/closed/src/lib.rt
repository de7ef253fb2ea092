// Whether a mesh is closed: change request L13.
#![tactic(auto)]

pub mod closed;
pub mod gather;
pub mod sweep;
