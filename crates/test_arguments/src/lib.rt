// The stored arguments of the program test_volumes, from the tables that oracle/ writes.
#![tactic(auto)]

pub mod lists;
pub mod meshes;
mod tables;
