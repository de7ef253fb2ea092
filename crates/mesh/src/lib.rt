// Meshes as lent runs: vectors, triangles, and the check of a mesh that is given to a call.
#![tactic(auto)]

pub mod check;
pub mod corners;
pub mod dunavant;
pub mod triangles;
pub mod vectors;
