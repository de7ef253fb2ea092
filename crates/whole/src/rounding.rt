// The whole number nearest to a float's exact value.
// Internal: a function with a `requires` is called by proved code alone.
ghost use Rattle.std.specs.Prelude.{◌≡◌, ◌≤◌, ◌<◌, ◌^◌, T};
ghost use Rattle.whole.specs.Whole.{signed_whole, printable};
ghost use Rattle.whole.specs.Whole.{nearest as nearestTo, magnitude as magnitudeOf, rounded as roundedTo};

use base::floats::{abs, is_negative};
use base::split::split;
use std::cmp::Ordering;

// A whole number by its sign and magnitude, as a figure is written, one that is rounded to 0 with its minus. (No ghost
// field bounds the size: a page's total is up to 32 * 10^15, one figure up to 10^15.)
#[derive(Clone, Copy)]
pub struct Whole {
    pub minus: bool,
    pub size: u64,
}

// sig / 2^k, rounded.
fn nearest(sig: u64, k: u64) -> u64
    requires { (sig < 2 ^ 53) × (k ≤ 53) }
    ensures { result ≡ nearestTo sig (2 ^ k) }
{
    let unit = 1u64 << k;
    let q = sig >> k;
    let twice = 2 * (sig & (unit - 1));
    match twice.cmp(&unit) {
        Ordering::Less => q,
        Ordering::Greater => q + 1,
        Ordering::Equal => q + q % 2,
    }
}

// The magnitude of a value up to 10^15, rounded.
fn magnitude(x: f64) -> u64
    requires { T (printable x) }
    ensures { (result ≡ magnitudeOf x) × (result ≤ 1000000000000000) }
{
    let b = f64::to_bits(abs(x));
    if b == 0 {
        return 0;
    }
    let p = split(b);
    let ex = p.ex;
    if ex < 1073 {
        return 0;
    }
    nearest(p.sig, 1126 - ex)
}

// A value up to 10^15, rounded.
#[tactic(auto, unfolding(crate::specs::Whole::rounded))]
pub fn rounded(x: f64) -> Whole
    requires { T (printable x) }
    ensures { (signed_whole result.minus result.size ≡ roundedTo x) × (result.size ≤ 1000000000000000) }
{
    let size = magnitude(x);
    Whole {
        minus: is_negative(x),
        size,
    }
}
