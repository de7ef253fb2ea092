// The pieces of a kernel: itself where its exponent is near 1, else a fit by kernels of exponent 1.
// What users call, `decompose`, `decompose_into` and `decompose_list`, has no `requires`.
#![tactic(auto)]

pub mod basis;
pub mod fit;
pub mod kernels;
pub mod lists;
pub mod normal;
pub mod pieces;
pub mod points;
pub mod tables;
