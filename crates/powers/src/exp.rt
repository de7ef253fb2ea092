// 01's exp: two to the power y, by its whole part and fourteen terms of a series.
ghost use Rattle.std.specs.Prelude.{◌≡◌, ◌≤◌, ◌≤ℤ◌, false, T, pos, negsuc};
ghost use Rattle.std.specs.Float.{fin};
ghost use Rattle.std.specs.Float.Ieee.{lt, le, neg};
ghost use Rattle.base.specs.Floats.{bits};
ghost use Rattle.powers.specs.Exp.{scale, exp_sum, raised, exp_at, exp, floor};

use base::floats::abs;

// 2^c
fn pow2(c: i64) -> f64
    requires { (negsuc 1021 ≤ℤ c) × (c ≤ℤ pos 1023) }
    ensures { result ≡ fin false 1 c }
{
    f64::from_bits(((c + 1023) as u64) << 52)
}

// a·2^c, rounded once. At 1024 the first product is exact, or an infinity as the whole is; below -1022 it is exact,
// unless a is so small, below 2^-900, that the whole is zero.
fn scale(a: f64, c: i64) -> f64
    requires { (negsuc 1079 ≤ℤ c) × (c ≤ℤ pos 1024) }
    ensures { result ≡ scale a c }
{
    if c > 1023 {
        return (a * pow2(1023)) * 2.0;
    }
    if c >= -1022 {
        return a * pow2(c);
    }
    if abs(a) < 1.1830521861667747e-271 {
        return a * pow2(-1022);
    }
    let rest = c + 1022;
    (a * pow2(rest)) * pow2(-1022)
}

// The series at z.
#[tactic(auto, using(crate::proofs::Turns::turns), unfolding(crate::specs::Exp::exp_sum))]
fn exp_sum(z: f64) -> f64
    ensures { result ≡ exp_sum z }
{
    let mut a = 1.0;
    for k in (0..13u32).rev() {
        a = 1.0 + z * a / ((k + 1) as f64);
    }
    a
}

// x rounded up to a whole number, for 0 < x <= 1080.
fn raised(x: f64) -> u64
    requires fact_1 { T (lt (bits 0) x) }
    requires fact_2 { T (le x (fin false 135 (pos 3))) }
    ensures { (result ≡ raised x) × (1 ≤ result) × (result ≤ 1080) }
{
    let t = std::num::truncating_f64_to_u64(x);
    if std::num::nearest_u64_to_f64(t) < x {
        t + 1
    } else {
        t
    }
}

// The greatest whole number up to w, from -1080 to 1024.5.
fn floor(w: f64) -> i64
    requires fact_1 { T (le (neg w) (fin false 135 (pos 3))) }
    requires fact_2 { T (le w (fin false 2049 (negsuc 0))) }
    ensures { (result ≡ floor w) × (negsuc 1079 ≤ℤ result) × (result ≤ℤ pos 1024) }
{
    let x = -w;
    if x > 0.0 {
        -(raised(x) as i64)
    } else {
        std::num::truncating_f64_to_u64(w) as i64
    }
}

// E with the whole number next to y: w is y + 0.5, from -1080 to 1024.5.
#[tactic(auto, unfolding(crate::specs::Exp::exp_at))]
fn exp_at(y: f64, w: f64) -> f64
    requires fact_1 { T (le (neg w) (fin false 135 (pos 3))) }
    requires fact_2 { T (le w (fin false 2049 (negsuc 0))) }
    ensures { result ≡ exp_at y (floor w) }
{
    let n = floor(w);
    scale(
        exp_sum((y - std::num::nearest_i64_to_f64(n)) * 0.6931471805599453),
        n,
    )
}

// E(y), two to the power y.
#[tactic(auto, unfolding(crate::specs::Exp::exp))]
pub fn exp(y: f64) -> f64
    ensures { result ≡ exp y }
{
    if y != y {
        return y;
    }
    if y >= 1024.0 {
        return f64::INFINITY;
    }
    if y < -1080.0 {
        return 0.0;
    }
    exp_at(y, y + 0.5)
}
