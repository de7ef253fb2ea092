// Whole numbers from floats: the nearest to an exact value, of two equally near ones the even.
#![tactic(auto)]

pub mod rounding;
