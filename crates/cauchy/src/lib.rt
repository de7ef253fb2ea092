// The C interface: every function that libcauchy.a exports. None has a `requires`.
#![tactic(auto)]

pub mod bills;
pub mod files;
pub mod kernels;
pub mod meshes;
pub mod numbers;
pub mod scripts;
pub mod sources;
pub mod stores;
pub mod volumes;
