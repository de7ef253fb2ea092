// The IEEE 754 square root of an f64. Its digits are found by a guess in floats, which nothing is
// proved about, and a proved check in whole numbers; where the check fails, digit by digit.
#![tactic(auto)]

ghost use Rattle.std.specs.Prelude.{◌≡◌, ◌+◌, ◌*◌, ◌^◌, ◌<◌, ◌≤◌, IfSome};
ghost use Rattle.std.specs.Float.{binary64};
ghost use Rattle.base.specs.Split.{Scaled, units_at};
ghost use Rattle.root.specs.Root.{square_root, Floor, Rounded};

use base::split::split;
use lanes::part;

pub mod lanes;

// A whole root and what is left.
#[derive(Clone, Copy)]
struct Whole {
    root: u64,
    rest: u64,
}

// The whole root of d * 2^54, a binary digit at a time, and the rest. (The turn's number is what its invariant counts by.)
fn whole_root(d: u64) -> Whole
    requires { d < 2 ^ 54 }
    ensures { Floor (d * 2 ^ 54) result.root result.rest }
{
    let mut left = d << 10;
    let mut root = 0u64;
    let mut rest = 0u64;
    for i in 0..54u64 {
        let brought = rest * 4 + (left >> 62);
        left = left << 2;
        let trial = root * 4 + 1;
        if trial <= brought {
            rest = brought - trial;
            root = root * 2 + 1;
        } else {
            rest = brought;
            root = root * 2;
        }
    }
    Whole { root, rest }
}

// The root of d * 2^52, rounded, from its digits.
fn by_digits(d: u64) -> u64
    requires { (2 ^ 52 ≤ d) × (d < 2 ^ 54) }
    ensures { Rounded d result }
{
    let w = whole_root(d);
    let q = w.root;
    (q >> 1) + (q & 1)
}

// A step of Newton's towards 1 / √(2h), from y, in the shortest chain of operations. Nothing is promised
// of a guess.
fn refine(h: f64, y: f64) -> f64 {
    1.5 * y - (h * y) * (y * y)
}

// A first step towards 1 / √f, with the factors that even out the errors of the y that a pattern gives.
fn first(f: f64, y: f64) -> f64 {
    1.68191391 * y - (0.703952253 * f * y) * (y * y)
}

// A step towards √f from f * y, where y is near 1 / √f, that leaves the third power of the error.
fn finish(f: f64, y: f64) -> f64 {
    let s = f * y;
    s + (f - s * s) * (0.875 * y - (0.375 * y) * (s * y))
}

// A float near √f, of the pattern `bits`, for an f from 1 up to 4.
fn near_root(bits: u64) -> f64
    requires { bits < 5000000000000000000 }
{
    let f = f64::from_bits(bits);
    let y = first(f, f64::from_bits(0x5FE3_FFFF_2000_0000 - (bits >> 1)));
    finish(f, refine(f * 0.5, y))
}

// A number near the digits of the root of an f from 1 up to 4, of the pattern `bits`, mostly one below.
fn guess(bits: u64) -> u64
    requires { bits < 5000000000000000000 }
    ensures { (0 < result) × (result < 2 ^ 53) }
{
    let s = near_root(bits);
    if s != s {
        return 1;
    }
    ((f64::to_bits(s) & 0xF_FFFF_FFFF_FFFF) | 0x10_0000_0000_0000) - 1
}

// Which of g, g + 1 and g + 2 is the root of d * 2^52, rounded; none where a difference is below 0 or too large.
fn confirm(d: u64, g: u64) -> Option<u64>
    requires { (d < 2 ^ 54) × (0 < g) × (g < 2 ^ 53) }
    ensures { IfSome result (Rounded d) }
{
    let h = g >> 26;
    let l = g & 0x3FF_FFFF;
    let a = d.checked_sub(h * h)?;
    if a >= 0x20_0000_0000 {
        return None;
    }
    let b = (a * 0x400_0000).checked_sub(2 * (h * l))?;
    if b >= 0x20_0000_0000 {
        return None;
    }
    let u = (b * 0x400_0000 + (g - 1)).checked_sub(l * l)?;
    let step = 2 * g;
    if u < step {
        return Some(g);
    }
    let v = u - step;
    if v < step + 2 {
        return Some(g + 1);
    }
    if v < 2 * step + 6 { Some(g + 2) } else { None }
}

// The root of d * 2^52, rounded, where d is sig * 2^odd and `bits` the pattern to guess from.
fn nearest(sig: u64, odd: u64, bits: u64) -> u64
    requires { (2 ^ 52 ≤ sig) × (sig < 2 ^ 53) × (odd < 2) × (bits < 5000000000000000000) }
    ensures { Rounded (sig * 2 ^ odd) result }
{
    let d = sig << odd;
    match confirm(d, guess(bits)) {
        Some(root) => root,
        None => by_digits(d),
    }
}

// A significand, its exponent, and the pattern that the guess starts from.
#[derive(Clone, Copy)]
struct Apart {
    sig: u64,
    ex: u64,
    bits: u64,
}

// A pattern taken apart. A normal one's guess does not wait for the significand and the exponent.
fn take(b: u64) -> Apart
    requires { (0 < b) × (b < 9218868437227405312) }
    ensures { Scaled (units_at b) result.sig result.ex × (result.bits < 5000000000000000000) }
{
    if b < 0x10_0000_0000_0000 {
        let p = split(b);
        return Apart {
            sig: p.sig,
            ex: p.ex,
            bits: p.sig + ((1022 + (p.ex & 1)) << 52),
        };
    }
    Apart {
        sig: (b & 0xF_FFFF_FFFF_FFFF) | 0x10_0000_0000_0000,
        ex: (b >> 52) + 51,
        bits: part(b),
    }
}

// The square root: IEEE 754's, to nearest even.
pub fn root(x: f64) -> f64
    ensures { result ≡ square_root binary64 x }
{
    if x != x {
        return x;
    }
    if x == 0.0 {
        return x;
    }
    if x < 0.0 {
        return f64::NAN;
    }
    let b = f64::to_bits(x);
    if b >= 0x7FF0_0000_0000_0000 {
        return x;
    }
    let p = take(b);
    let ex = p.ex;
    let a = nearest(p.sig, ex & 1, p.bits);
    f64::from_bits((((ex >> 1) + 485) << 52) + a)
}
