// The density of a list of kernels at a point, the conventions on its weights, and the report of its mass.
#![tactic(auto)]

pub mod convention;
pub mod densitize;
pub mod report;
