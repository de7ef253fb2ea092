// The terms of a fit: their scales, their values at a point, and how far their sum is from the curve.
// Loops go by index, as the definitions do, since each runs over two arrays in step.
// Internal: a function with a `requires` is called by proved code alone.
ghost use Rattle.std.specs.Prelude.{◌≡◌, ◌<◌, ◌≤◌};
ghost use Rattle.pieces.specs.Fit.{zeros, scales_of, term_of, basis_of, approx, peak_error};

use crate::points::{SampledCurve, fill_scales};
use crate::tables::fill_table;
use base::floats::{abs, greater_of};

// How many terms, and their scales, the first of the array.
#[derive(Clone, Copy)]
pub struct Basis {
    pub terms: usize,
    pub scales: [f64; 16],
    ghost few: { terms ≤ 16 },
}

// The value at u of the term of a scale.
fn term_of(scale: f64, u: f64) -> f64
    ensures { result ≡ term_of scale u }
{
    1.0 / (1.0 + (scale * u) * (scale * u))
}

impl Basis {
    // So many terms, with their scales.
    pub fn of(terms: usize) -> Basis
        requires { (terms ≤ 16) × (terms ≡ 1 → ⊥) }
        ensures { (result.terms ≡ terms) × (result.scales ≡ scales_of terms zeros) }
    {
        let mut scales = [0.0; 16];
        fill_scales(&mut scales, terms);
        Basis { terms, scales }
    }

    // Writes every term's value at u, into a place of the caller's: an array that is given back is copied once more.
    #[tactic(auto, unfolding(crate::specs::Fit::basis_of, crate::specs::Tables::Tabled))]
    pub fn fill_values(&self, values: &mut [f64; 16], u: f64)
        ensures { values.new ≡ basis_of self.now.terms self.now.scales u values.old }
    {
        fill_table(values, self.terms, |i| term_of(self.scales[i], u));
    }

    // The fit's value at u, summed in the order of the terms.
    #[tactic(auto, unfolding(crate::specs::Fit::approx), using(crate::proofs::Turns::turns))]
    fn approximate(&self, coefficients: &[f64; 16], u: f64) -> f64
        ensures { result ≡ approx self.now.terms self.now.scales coefficients.now u }
    {
        let mut sum = 0.0;
        for i in 0..self.terms {
            let v = self.scales[i] * u;
            sum += coefficients[i] / (1.0 + v * v);
        }
        sum
    }

    // The greatest deviation over the samples, relative to the peak.
    #[tactic(auto, unfolding(crate::specs::Fit::peak_error, crate::specs::Fit::error_at), using(crate::proofs::Turns::turns))]
    pub fn peak_error(&self, coefficients: &[f64; 16], sampled: &SampledCurve) -> f64
        ensures { result ≡ peak_error self.now.terms self.now.scales coefficients.now sampled.now.curve }
    {
        let mut error = 0.0;
        for j in 0..sampled.curve.samples {
            let deviation = abs(self.approximate(coefficients, sampled.us[j]) - sampled.targets[j]);
            error = greater_of(error, deviation);
        }
        error
    }
}
