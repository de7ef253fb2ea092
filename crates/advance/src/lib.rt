// The call that does a store's work in portions.
#![tactic(auto)]

pub mod advance;
pub mod work;
