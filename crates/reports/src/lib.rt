// What a store tells of its pieces: the report, the report of what is finished, and the list. None of the three calls
// has a `requires`, and none changes the store.
#![tactic(auto)]

pub mod finished;
pub mod listing;
pub mod reports;
