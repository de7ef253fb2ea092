// A float's significand and exponent, which the square root and the logarithm start from.
// Internal: a function with a `requires` is called by proved code alone.
ghost use Rattle.std.specs.Prelude.{◌<◌};
ghost use Rattle.base.specs.Split.{units_at, Scaled};

// A significand of 53 digits and the exponent that goes with it: sig * 2^(ex - 52) units of 2^-1074.
#[derive(Clone, Copy)]
pub struct Parts {
    pub sig: u64,
    pub ex: u64,
}

// The significand and exponent of a pattern above zero and below infinity.
pub fn split(b: u64) -> Parts
    requires { (0 < b) × (b < 9218868437227405312) }
    ensures { Scaled (units_at b) result.sig result.ex }
{
    let field = b >> 52;
    let digits = b & 0xF_FFFF_FFFF_FFFF;
    if field == 0 {
        let up = (u64::leading_zeros(digits) as u64) - 11;
        Parts {
            sig: digits << up,
            ex: 52 - up,
        }
    } else {
        Parts {
            sig: digits | 0x10_0000_0000_0000,
            ex: field + 51,
        }
    }
}
