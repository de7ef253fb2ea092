// A store as lines of text: what the lines are, and how many bytes they take.
#![tactic(auto)]

pub mod room;
