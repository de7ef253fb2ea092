// Source density.rs: the kernels' weights and places brought to a mass and a mesh.
#![tactic(auto)]

pub mod calibrate;
pub mod normalize;
