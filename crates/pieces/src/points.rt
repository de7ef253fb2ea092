// The scales of a fit's terms, the points at which it samples its curve, and the curve's values there.
// Internal: a function with a `requires` is called by proved code alone.
ghost use Rattle.std.specs.Prelude.{◌≡◌, ◌<◌, ◌≤◌};
ghost use Rattle.base.specs.Floats.{whole};
ghost use Rattle.base.specs.Loops.{table};
ghost use Rattle.pieces.specs.Fit.{term_scale, scales_of, sample_of, target_of};
ghost use Rattle.pieces.specs.Samples.{value_at, Samples};

use crate::tables::fill_table;
use powers::power::{power, ten};

// What is fitted: the exponent, how many samples, and the log10 of the farthest. (No ghost field says how many these may
// be: the definition `curve_of` builds the value, and would carry the proof.)
#[derive(Clone, Copy)]
pub struct Curve {
    pub alpha: f64,
    pub samples: usize,
    pub reach: f64,
}

// A curve with its samples, worked out once: the first `curve.samples` points, and the kernel's own values there,
// relative to its peak. Two arrays, not one of samples: filled point by point, with its value, a fit took a tenth
// longer at fifteen places of the code in memory, since a value waits for its point.
#[derive(Clone, Copy)]
pub struct SampledCurve {
    pub curve: Curve,
    pub us: [f64; 48],
    pub targets: [f64; 48],
    pub ghost few: { curve.samples ≤ 48 },
    pub ghost sampled: { Samples curve us targets },
}

// A small count as a float.
pub fn whole(n: usize) -> f64
    requires { n < 65536 }
    ensures { result ≡ whole n }
{
    n as f64
}

// The scale of term i: two decades around 1.
#[tactic(auto, unfolding(crate::specs::Fit::term_scale))]
fn scale_of(terms: usize, i: usize) -> f64
    requires { (1 < terms) × (terms ≤ 16) × (i < terms) }
    ensures { result ≡ term_scale terms i }
{
    let t = whole(i) / whole(terms - 1);
    ten(-1.0 + 2.0 * t)
}

// Writes the scales of all terms; places past them stay.
#[tactic(auto, unfolding(crate::specs::Fit::scales_of, crate::specs::Tables::Tabled))]
pub fn fill_scales(scales: &mut [f64; 16], terms: usize)
    requires { (terms ≤ 16) × (terms ≡ 1 → ⊥) }
    ensures { scales.new ≡ scales_of terms scales.old }
{
    fill_table(scales, terms, |i| scale_of(terms, i));
}

// The point of sample j: the peak itself, then logarithmic from 1e-4 to the farthest.
#[tactic(auto, unfolding(crate::specs::Fit::sample_of))]
fn sample_of(curve: Curve, j: usize) -> f64
    requires { (1 < curve.samples) × (curve.samples ≤ 48) × (j < curve.samples) }
    ensures { result ≡ sample_of curve j }
{
    if j == 0 {
        return 0.0;
    }
    let t = whole(j) / whole(curve.samples - 1);
    ten(-4.0 + (curve.reach + 4.0) * t)
}

// The kernel's own value at u, relative to its peak.
#[tactic(auto, unfolding(crate::specs::Fit::target_of))]
fn target_of(alpha: f64, u: f64) -> f64
    ensures { result ≡ target_of alpha u }
{
    power(1.0 + u * u, -alpha)
}

// Writes the points of the samples; places past them stay.
#[tactic(auto, unfolding(crate::specs::Tables::Tabled))]
pub fn fill_points(us: &mut [f64; 48], curve: Curve)
    requires { (1 < curve.samples) × (curve.samples ≤ 48) }
    ensures { us.new ≡ table (sample_of curve) curve.samples us.old }
{
    fill_table(us, curve.samples, |j| sample_of(curve, j));
}

// Writes the kernel's own values at the points, whatever these are; places past them stay.
#[tactic(auto, unfolding(crate::specs::Tables::Tabled))]
pub fn fill_targets(targets: &mut [f64; 48], us: &[f64; 48], curve: Curve)
    requires { curve.samples ≤ 48 }
    ensures { targets.new
        ≡ table (value_at curve us.now) curve.samples targets.old }
{
    fill_table(targets, curve.samples, |j| target_of(curve.alpha, us[j]));
}

impl SampledCurve {
    // Samples a curve.
    #[tactic(auto, using(crate::specs::SampleLaws::holds))]
    pub fn of(curve: Curve) -> SampledCurve
        requires { (1 < curve.samples) × (curve.samples ≤ 48) }
        ensures { result.curve ≡ curve }
    {
        let mut us = [0.0; 48];
        fill_points(&mut us, curve);
        let mut targets = [0.0; 48];
        fill_targets(&mut targets, &us, curve);
        SampledCurve { curve, us, targets }
    }
}
