// 01's power, ten and log10, over log and exp; ten of a whole number by a table (02, L2).
ghost use Rattle.std.specs.Prelude.{◌≡◌, ◌≤◌};
ghost use Rattle.powers.specs.Power.{power, ten_steps, whole_ten, ten_to, log10};

use crate::exp::exp;
use crate::log::log;
use base::floats::abs;

// P(b, y), b to the power y.
#[tactic(auto, unfolding(crate::specs::Power::power))]
pub fn power(b: f64, y: f64) -> f64
    ensures { result ≡ power b y }
{
    if b == 1.0 {
        return 1.0;
    }
    if y == 0.0 {
        return 1.0;
    }
    exp(y * log(b))
}

// Ten to the power y by 01's steps.
#[tactic(auto, unfolding(crate::specs::Power::ten_steps))]
fn ten_steps(y: f64) -> f64
    ensures { result ≡ ten_steps y }
{
    exp(y * 3.321928094887362)
}

// The float 10^k. The powers stand in the code one by one: an array that is read at k would be laid out in memory
// anew at each call.
#[tactic(auto, unfolding(crate::specs::Power::whole_ten))]
fn whole_ten(k: u64) -> f64
    requires { k ≤ 22 }
    ensures { result ≡ whole_ten k }
{
    match k {
        0 => 1.0,
        1 => 10.0,
        2 => 100.0,
        3 => 1000.0,
        4 => 1e4,
        5 => 1e5,
        6 => 1e6,
        7 => 1e7,
        8 => 1e8,
        9 => 1e9,
        10 => 1e10,
        11 => 1e11,
        12 => 1e12,
        13 => 1e13,
        14 => 1e14,
        15 => 1e15,
        16 => 1e16,
        17 => 1e17,
        18 => 1e18,
        19 => 1e19,
        20 => 1e20,
        21 => 1e21,
        _ => 1e22,
    }
}

// T(y), by the table where y is a whole number from -22 to 22.
fn ten_whole(y: f64) -> f64
    ensures { result ≡ ten_to y }
{
    let size = abs(y);
    if size < 23.0 {
        let k = std::num::truncating_f64_to_u64(size);
        if size == std::num::nearest_u64_to_f64(k) {
            let p = whole_ten(k);
            return if y < 0.0 { 1.0 / p } else { p };
        }
    }
    ten_steps(y)
}

// T(y), ten to the power y. Beside 3·2^51 a float has no digits behind the point, so the sum drops those of y: what
// has any, as almost every argument of a fit, is told at once to be no whole number.
pub fn ten(y: f64) -> f64
    ensures { result ≡ ten_to y }
{
    if (y + 6755399441055744.0) - 6755399441055744.0 == y {
        return ten_whole(y);
    }
    ten_steps(y)
}

// The logarithm to base ten.
#[tactic(auto, unfolding(crate::specs::Power::log10))]
pub fn log10(b: f64) -> f64
    ensures { result ≡ log10 b }
{
    log(b) * 0.3010299956639812
}
