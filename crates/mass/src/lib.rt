// Volume, centroid and mass of a field, with their refusals (native mass.rs).
#![tactic(auto)]

pub mod calls;
pub mod centroid;
pub mod homogeneous;
pub mod total;
