// The track: the densities of a store at many points by one call, which has no `requires` and changes no store.
#![tactic(auto)]

pub mod tracks;
