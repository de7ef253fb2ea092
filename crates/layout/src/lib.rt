// Where a store's fields stand in its two runs, the checks of a store that is given to a call, and the work that it has
// left.
#![tactic(auto)]

pub mod check;
pub mod left;
pub mod offsets;
pub mod runs;
