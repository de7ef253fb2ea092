// The volume of a kernel inside a mesh, as a surface integral (native mass.rs).
#![tactic(auto)]

mod block;
pub mod faces;
