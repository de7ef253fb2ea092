// The radial factor of the field whose divergence is the kernel. No function here has a `requires`.
#![tactic(auto)]

ghost use Rattle.std.specs.Prelude.{◌≡◌};
ghost use Rattle.radial.specs.Radial.{radial_gSeries, radial_g};

use base::floats::abs;
use powers::arc::arc;

// 1/3 - t²/5 + t⁴/7 - .., to the term of k = 9: no cancellation near 0.
#[tactic(auto, using(crate::proofs::Turns::turns), unfolding(crate::specs::Radial::series_of))]
pub fn radial_g_series(t: f64) -> f64
    ensures { result ≡ radial_gSeries t }
{
    let t2 = t * t;
    let mut acc = 1.0 / 3.0;
    let mut term = 1.0 / 3.0;
    for k in 1..10u32 {
        term *= -t2 * (2.0 * k as f64 + 1.0) / (2.0 * k as f64 + 3.0);
        acc += term;
    }
    acc
}

// g(t) = (t - atan t) / t³, by the series below 0.1.
#[tactic(auto, unfolding(crate::specs::Radial::radial_g))]
pub fn radial_g(t: f64) -> f64
    ensures { result ≡ radial_g t }
{
    if abs(t) < 0.1 {
        radial_g_series(t)
    } else {
        (t - arc(t)) / (t * t * t)
    }
}
