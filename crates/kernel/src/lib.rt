// A density kernel, lists of kernels as six floats each (c, sigma, w, alpha), and a kernel as it
// arrives from a file. What users call, `kernel_from_file`, has no `requires`.
#![tactic(auto)]

pub mod field;
pub mod file;
pub mod kernel;
