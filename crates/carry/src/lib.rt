// 02, L6: a store of the form before layers, with three words to a place, becomes one of today's form in other runs.
// `check` judges the old runs, `carry` copies them. This crate alone has the numbers of the old form.
#![tactic(auto)]

pub mod carry;
pub mod check;
