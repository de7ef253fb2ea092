// What every crate above uses: the refusals, a float's sign, bits and split.
#![tactic(auto)]

pub mod floats;
pub mod refusal;
pub mod split;
