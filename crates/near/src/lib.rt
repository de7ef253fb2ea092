// Of the faces of a mesh, those that have a corner near a range.
#![tactic(auto)]

pub mod list;
pub mod spans;
