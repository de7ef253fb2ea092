// A float's sign, absolute value and bits. No function here has a `requires`: so the library's `is_sign_negative` and
// `to_bits`, which ask that their argument be no NaN, are not enough, and its `abs` and `max` say less of zeros.
ghost use Rattle.std.specs.Prelude.{◌≡◌};
ghost use Rattle.std.specs.Float.{binary64};
ghost use Rattle.std.specs.Float.Ieee.{of_bits, to_bits};
ghost use Rattle.base.specs.Floats.{sign, signed, abs, greater};

// Whether the sign is minus; a NaN has none.
pub fn is_negative(x: f64) -> bool
    ensures { result ≡ sign x }
{
    if x != x {
        return false;
    }
    f64::to_bits(x) >= 0x8000_0000_0000_0000
}

// r, its sign turned where that of x is minus.
#[tactic(auto, unfolding(crate::specs::Floats::signed))]
pub fn signed(x: f64, r: f64) -> f64
    ensures { result ≡ signed x r }
{
    if is_negative(x) { -r } else { r }
}

// The absolute value.
pub fn abs(x: f64) -> f64
    ensures { result ≡ abs x }
{
    signed(x, x)
}

// The greater of a, which is no NaN, and b, which is passed over if it is one.
#[tactic(auto, unfolding(crate::specs::Floats::greater))]
pub fn greater_of(a: f64, b: f64) -> f64
    ensures { result ≡ greater a b }
{
    if a < b {
        return b;
    }
    a
}

// The bits of a float, 7FF8000000000000 for a NaN.
pub fn to_pattern(x: f64) -> u64
    ensures { result ≡ to_bits binary64 x }
{
    if x != x {
        return 0x7FF8_0000_0000_0000;
    }
    f64::to_bits(x)
}

// The float of any bits; each pattern of a NaN gives the one NaN.
pub fn from_pattern(b: u64) -> f64
    ensures { result ≡ of_bits binary64 b }
{
    if b % 0x8000_0000_0000_0000 > 0x7FF0_0000_0000_0000 {
        return 0.0 / 0.0;
    }
    f64::from_bits(b)
}
