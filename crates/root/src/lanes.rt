// The square root of one lane, for loops over arrays. No function here branches, so that LLVM makes
// such a loop two lanes at a time. Internal: for other crates' loops; `root::root` is the square root.
//
// Each of three loops does one step of all lanes, which is faster than one loop with the three steps:
//   p = near(x[i]); f[i] = p.part; y[i] = p.near;      or y[i] = near_unit(f[i]), near_one
//   y[i] = sharpen(f[i], y[i], ..);
//   p = any_lane(x[i], y[i]);           or unit_lane of f[i]
// p.root is used, and p.coarse and p.far are each or-ed into a word. If these words are small enough every p.root is
// the root, whatever the guesses were; else the lanes are to be done anew by `root::root`. Nothing is promised of a
// guess, so nothing is owed of one.
ghost use Rattle.std.specs.Prelude.{◌≡◌, ◌+◌, ◌-◌, ◌*◌, ◌%◌, ◌^◌, ◌<◌, ◌≤◌, true, not, T, ◌⊎◌, is_nan, to_bits};
ghost use Rattle.std.specs.Float.{binary64};
ghost use Rattle.std.specs.Float.Ieee.{lt};
ghost use Rattle.base.specs.Ranges.{Within};
ghost use Rattle.root.specs.Root.{square_root, Rounded};

// A root, which holds where coarse is below 2^36 and far below 2^62, for `unit_lane` below 2^54. The words
// of several lanes are or-ed and looked at once: a test of each lane's own would cost more.
#[derive(Clone, Copy)]
pub struct Lane {
    pub root: f64,
    pub coarse: u64,
    pub far: u64,
}

// Where a root is sought from: a significand f from 1 up to 4, and a float near 1 / √f.
#[derive(Clone, Copy)]
pub struct Guess {
    pub part: f64,
    pub near: f64,
}

// The digits of a root, of the two that are next to g, and what they rest on: `rest` is d * 2^52 without
// g * g and `short` is g without that, both modulo 2^64, and coarse is below 2^36 where nothing was lost.
#[derive(Clone, Copy)]
struct Checked {
    digits: u64,
    coarse: u64,
    rest: u64,
    short: u64,
}

// The greater of x and the least; the least for a NaN. The library's `max` makes a second test, of the argument, in
// each lane.
fn at_least(least: f64, x: f64) -> f64
    requires { T (not (is_nan least)) }
    ensures { T (not (is_nan result)) × ((result ≡ least) ⊎ ((lt least x ≡ true) × (result ≡ x))) }
{
    if x > least { x } else { least }
}

// The pattern of an x above zero, else 0.
fn pattern(x: f64) -> u64
    ensures { (result ≤ 9218868437227405312) × ((result ≡ 0) ⊎ (result ≡ to_bits binary64 x)) }
{
    f64::to_bits(at_least(0.0, x))
}

// The 53 digits of an s from 1 up to 2.
fn digits(s: f64) -> u64
    ensures { (2 ^ 52 ≤ result) × (result < 2 ^ 53) }
{
    (f64::to_bits(at_least(1.0, s)) & 0xF_FFFF_FFFF_FFFF) | 0x10_0000_0000_0000
}

// Whether g or g + 1 is the root of d * 2^52, rounded, by the sign of what is left of d * 2^52 without
// g * g. It is one of them where that is more than -g and at most 3 * g.
fn check(d: u64, g: u64) -> Checked
    requires { (2 ^ 52 ≤ g) × (g < 2 ^ 53) }
    ensures bound { (2 ^ 52 ≤ result.digits) × (result.digits ≤ 2 ^ 53) × (result.rest < 2 ^ 64) × (result.short < 2 ^ 64)
        × ((result.short + result.rest) % 2 ^ 64 ≡ g) }
    ensures rounded { result.coarse < 2 ^ 36 → (result.rest + (g - 1)) % 2 ^ 64 < 2 ^ 63 → (result.short + 2 * g) % 2 ^ 64 < 2 ^ 63
        → Rounded d result.digits }
{
    let h = g >> 26;
    let l = g & 0x3FF_FFFF;
    let a = std::num::wrapping_sub_u64(d, h * h);
    let b = std::num::wrapping_sub_u64(a << 25, h * l);
    let rest = std::num::wrapping_sub_u64(b << 27, l * l);
    let short = std::num::wrapping_sub_u64(g, rest);
    Checked {
        digits: g + (short >> 63),
        coarse: a | std::num::wrapping_add_u64(b, 0x8_0000_0000),
        rest,
        short,
    }
}

// Below 2^62 where the root is g or g + 1.
fn apart(g: u64, rest: u64, short: u64) -> u64
    requires { (2 ^ 52 ≤ g) × (g < 2 ^ 53) }
    ensures { result < 2 ^ 62 → ((rest + (g - 1)) % 2 ^ 64 < 2 ^ 63) × ((short + 2 * g) % 2 ^ 64 < 2 ^ 63) }
{
    std::num::wrapping_add_u64(rest, g - 1) | std::num::wrapping_add_u64(short, 2 * g)
}

// sig * 2^odd. SSE2 has no shift by a count of each lane's own.
fn doubled(sig: u64, odd: u64) -> u64
    requires { (sig < 2 ^ 53) × (odd < 2) }
    ensures { result ≡ sig * 2 ^ odd }
{
    sig + (sig & std::num::wrapping_sub_u64(0, odd))
}

// Below 2^62 for the patterns of values from 2^-511 up to 2^513, for which one word is enough. Others are
// left to `root::root`.
fn unusual(b: u64) -> u64
    requires { b ≤ 9218868437227405312 }
    ensures { result < 2 ^ 62 → (2 ^ 52 ≤ b) × (b < 9218868437227405312) }
{
    std::num::wrapping_sub_u64(b, 512 << 52)
}

// The root of x, if s is near the root of x's significand, that of `sharpen`.
pub fn any_lane(x: f64, s: f64) -> Lane
    ensures { result.coarse < 2 ^ 36 → result.far < 2 ^ 62 → result.root ≡ square_root binary64 x }
{
    let b = pattern(x);
    let sig = (b & 0xF_FFFF_FFFF_FFFF) | 0x10_0000_0000_0000;
    let ex = (b >> 52) + 51;
    let g = digits(s);
    let a = check(doubled(sig, ex & 1), g);
    Lane {
        root: f64::from_bits((((ex >> 1) + 485) << 52) + a.digits),
        coarse: a.coarse,
        far: apart(g, a.rest, a.short) | unusual(b),
    }
}

// The root of an f from 1 to 2, if s is near its root. What is left is held to the bounds of the least g,
// 2^52: one test in place of two, which the guesses of `sharpen` with 7.8e-17 pass.
pub fn unit_lane(f: f64, s: f64) -> Lane
    requires { Within 1 2 f }
    ensures { Within 1 2 result.root × (result.coarse < 2 ^ 36 → result.far < 2 ^ 54 → result.root ≡ square_root binary64 f) }
{
    let d = f64::to_bits(f) - (1022 << 52);
    let a = check(d, digits(s));
    Lane {
        root: f64::from_bits((1022 << 52) + a.digits),
        coarse: a.coarse,
        far: std::num::wrapping_add_u64(a.rest, 0xF_FFFF_FFFF_FFFF),
    }
}

// The pattern of b's significand, as a float from 1 up to 4 with the parity of b's exponent. (A bare word: what four
// functions ask of it is one bound, which a type of its own would repeat.)
pub fn part(b: u64) -> u64
    ensures { result < 5000000000000000000 }
{
    ((b ^ 0x10_0000_0000_0000) & 0x1F_FFFF_FFFF_FFFF) + (1023 << 52)
}

// A step of Newton's towards 1 / √(2h), from y, in the fewest operations.
fn refine(h: f64, y: f64) -> f64 {
    y * (1.5 - h * y * y)
}

// The guess for the f of the pattern `bits`, from 1 up to 4.
fn near_part(bits: u64) -> Guess
    requires { bits < 5000000000000000000 }
{
    let f = f64::from_bits(bits);
    let h = f * 0.5;
    let y = refine(
        h,
        refine(
            h,
            refine(h, f64::from_bits(0x5FE6_EB50_C7B5_37A9 - (bits >> 1))),
        ),
    );
    Guess { part: f, near: y }
}

// The guess for the significand of x.
pub fn near(x: f64) -> Guess {
    near_part(part(pattern(x)))
}

// A float near 1 / √f, for an f from 1 to 2.
pub fn near_unit(f: f64) -> f64 {
    let h = f * 0.5;
    refine(
        h,
        refine(
            h,
            1.5736807460508961 + f * (-0.7222365662447514 + f * 0.14496474855286987),
        ),
    )
}

// A float near 1 / √f, for an f from 1 to 1.1716.
pub fn near_one(f: f64) -> f64 {
    let h = f * 0.5;
    refine(
        h,
        1.8020376955656294 + f * (-1.1083747033609792 + f * 0.3062971124678496),
    )
}

// A float at √f or a last digit below it, from a y near 1 / √f, for an f from 1 up to 4: `less`, about half
// a last digit, is taken off before the sum is rounded.
pub fn sharpen(f: f64, y: f64, less: f64) -> f64 {
    let s = f * y;
    s + ((0.5 * y) * (f - s * s) - less)
}
