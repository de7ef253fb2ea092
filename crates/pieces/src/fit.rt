// How the fit of a kernel ended.

// The four ways. `Kept`: the kernel stays, and nothing is fitted. `Fitted`: by the solver, with the smallest
// pivot that it accepted, in absolute value. `Fallback`: the solver met a flat pivot in this column, from 0,
// and one term stands for all. `NoExponent`: the exponent is a NaN, and there is no piece.
#[derive(Clone, Copy)]
pub enum Fit {
    Kept,
    Fitted(f64),
    Fallback(u32),
    NoExponent,
}
