// Many hands: the work on a place may be done in another store of the same body, and comes back by an adoption. `same`
// compares the two bodies, `check` judges both stores, `adopt` copies the place.
#![tactic(auto)]

pub mod adopt;
pub mod check;
pub mod same;
