// What crosses to C: a struct for each answer, and the function that makes it of the answer; what C gives by a number.
// An answer crosses as its number, 0 where the call is not refused, then its values, which are 0 where it is. The
// functions that C calls, each with its call of the library, are in crates/cauchy.
#![tactic(auto)]

pub mod bills;
pub mod files;
pub mod kernels;
pub mod meshes;
pub mod scripts;
pub mod sources;
pub mod stores;
pub mod volumes;
