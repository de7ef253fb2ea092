// What the readings of a store share, and the density at a point: when a reading is refused, the places that it sees,
// their pieces, the sums and counts over them, and the scale of a convention. The call at a point has no `requires`,
// and nothing here changes the store.
#![tactic(auto)]

pub mod at_point;
pub mod counts;
pub mod held;
pub mod lists;
pub mod places;
pub mod seen;
pub mod shared;
pub mod sums;
