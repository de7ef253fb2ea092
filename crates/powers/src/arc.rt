// 01's arc: the arc tangent by two halvings of the angle and twelve terms of its series.
ghost use Rattle.std.specs.Prelude.{◌≡◌};
ghost use Rattle.powers.specs.Arc.{halved, arc_sum, arc_core, arc_abs, arc};

use base::floats::{abs, signed};

// The tangent of half the angle whose tangent is v.
#[tactic(auto, unfolding(crate::specs::Arc::halved))]
fn halved(v: f64) -> f64
    ensures { result ≡ halved v }
{
    v / (1.0 + root::root(1.0 + v * v))
}

// The tangent of a quarter of the angle whose tangent is v.
fn quartered(v: f64) -> f64
    ensures { result ≡ halved (halved v) }
{
    let half = halved(v);
    halved(half)
}

// The series, without its first factor, at q = v * v.
#[tactic(auto, using(crate::proofs::Turns::turns), unfolding(crate::specs::Arc::arc_sum))]
fn arc_sum(q: f64) -> f64
    ensures { result ≡ arc_sum q }
{
    let mut a = 1.0 / 23.0;
    for k in (0..11u32).rev() {
        a = 1.0 / ((2 * k + 1) as f64) - q * a;
    }
    a
}

// Four times the arc of a small v.
#[tactic(auto, unfolding(crate::specs::Arc::arc_core))]
pub fn arc_core(v: f64) -> f64
    ensures { result ≡ arc_core v }
{
    4.0 * (v * arc_sum(v * v))
}

// The arc of an s whose sign is off.
#[tactic(auto, unfolding(crate::specs::Arc::arc_abs))]
fn arc_abs(s: f64) -> f64
    ensures { result ≡ arc_abs s }
{
    if s > 1.0 {
        1.5707963267948966 - arc_core(quartered(1.0 / s))
    } else {
        arc_core(quartered(s))
    }
}

// A(t), the arc tangent.
#[tactic(auto, unfolding(crate::specs::Arc::arc))]
pub fn arc(t: f64) -> f64
    ensures { result ≡ arc t }
{
    signed(t, arc_abs(abs(t)))
}
