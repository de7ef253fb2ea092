// The numbers of a mesh's directed edges, and the ranges that they are gone through in.
#![tactic(auto)]

pub mod divide;
pub mod numbers;
pub mod ranges;
