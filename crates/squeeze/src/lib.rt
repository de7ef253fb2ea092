// 02, L12: the vertices that no face uses are squeezed out of a store. `marks` finds the used ones, `moves` renumbers
// the corners and moves the coordinates down, `squeeze` is the call; a refused one changes nothing.
#![tactic(auto)]

pub mod marks;
pub mod moves;
pub mod squeeze;
