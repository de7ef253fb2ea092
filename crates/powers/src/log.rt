// 01's log: the logarithm to base 2, by the split of a float and eleven terms of a series.
ghost use Rattle.std.specs.Prelude.{◌≡◌, ◌≤◌, T};
ghost use Rattle.std.specs.Float.{binary64};
ghost use Rattle.std.specs.Float.Ieee.{of_int, minus};
ghost use Rattle.std.specs.Float.Ieee.Positive.{positive};
ghost use Rattle.powers.specs.Log.{place_of, mantissa, log_sum, log_core, log_at, log_positive, log};

use base::split::split;

// A float above zero as m * 2^(place - 1074), m from 1 up to 2.
#[derive(Clone, Copy)]
struct Binary {
    m: f64,
    place: u64,
}

// The binary form of a float above zero and below infinity. The pattern added is of the exponent
// below 1's: the first digit of the significand adds one to it.
fn binary_of(b: f64) -> Binary
    requires { T (positive b) }
    ensures { (result.m ≡ mantissa b) × (result.place ≡ place_of b) × (result.place ≤ 2097) }
{
    let p = split(f64::to_bits(b));
    Binary {
        m: f64::from_bits(p.sig + 0x3FE0_0000_0000_0000),
        place: p.ex,
    }
}

// place - 1074 as a float.
fn exponent(place: u64) -> f64
    ensures { result ≡ of_int binary64 (minus place 1074) }
{
    if 1074 <= place {
        std::num::nearest_u64_to_f64(place - 1074)
    } else {
        -std::num::nearest_u64_to_f64(1074 - place)
    }
}

// The series, without its first factor, at q = s * s. The arc's has minus where this has plus: one function of both
// would take the step as a closure, and be no shorter.
#[tactic(auto, using(crate::proofs::Turns::turns), unfolding(crate::specs::Log::log_sum))]
fn log_sum(q: f64) -> f64
    ensures { result ≡ log_sum q }
{
    let mut a = 1.0 / 21.0;
    for k in (0..10u32).rev() {
        a = 1.0 / ((2 * k + 1) as f64) + q * a;
    }
    a
}

// The natural logarithm of (1 + s) / (1 - s).
#[tactic(auto, unfolding(crate::specs::Log::log_core))]
fn log_core(s: f64) -> f64
    ensures { result ≡ log_core s }
{
    2.0 * (s * log_sum(s * s))
}

// The logarithm of m * 2^(place - 1074).
#[tactic(auto, unfolding(crate::specs::Log::log_at))]
fn log_at(m: f64, place: u64) -> f64
    ensures { result ≡ log_at m place }
{
    exponent(place) + log_core((m - 1.0) / (m + 1.0)) * 1.4426950408889634
}

// The logarithm of a float above zero and below infinity.
#[tactic(auto, unfolding(crate::specs::Log::log_positive))]
fn log_positive(b: f64) -> f64
    requires { T (positive b) }
    ensures { result ≡ log_positive b }
{
    let d = binary_of(b);
    if d.m > 1.4142135623730951 {
        log_at(d.m * 0.5, d.place + 1)
    } else {
        log_at(d.m, d.place)
    }
}

// L(b), the logarithm to base 2.
#[tactic(auto, unfolding(crate::specs::Log::log))]
pub fn log(b: f64) -> f64
    ensures { result ≡ log b }
{
    if b != b {
        return b;
    }
    if b < 0.0 {
        return f64::NAN;
    }
    if b == 0.0 {
        return f64::NEG_INFINITY;
    }
    if b == f64::INFINITY {
        return b;
    }
    log_positive(b)
}
