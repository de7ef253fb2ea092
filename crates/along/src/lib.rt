// The densities of a list of kernels along a track of points.
#![tactic(auto)]

pub mod along;
