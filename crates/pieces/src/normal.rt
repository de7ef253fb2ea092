// The normal equations of the fit, summed sample by sample in a 16 by 17 matrix, and their solution.
// The matrix and the number of its rows in use stand beside one another, as in solve's `eliminate`, which gets both.
// Loops go by index, as the definitions do, since each runs over two or three arrays in step.
// Internal: a function with a `requires` is called by proved code alone.
ghost use Rattle.std.specs.Prelude.{◌≡◌, ◌≤◌};
ghost use Rattle.solve.specs.Elimination.{eliminated};
ghost use Rattle.pieces.specs.Fit.{crossed, target_at, sampled, equations, ridged, coefficients_of};
ghost use Rattle.pieces.specs.FitEnd.{ended_fit};

use crate::basis::Basis;
use crate::fit::Fit;
use crate::points::SampledCurve;
use solve::eliminate::{FlatPivot, eliminate};
use solve::runs::copy_out;

// Adds one sample to a row, left and right side; wa is the value of the row's own term.
#[tactic(auto, unfolding(crate::specs::Fit::crossed), using(crate::proofs::Turns::turns))]
fn add_row(row: &mut [f64; 17], terms: usize, values: &[f64; 16], wa: f64, target: f64)
    requires { terms ≤ 16 }
    ensures { row.new ≡ target_at terms wa target
        (crossed terms values.now wa row.old) }
{
    for b in 0..terms {
        row[b] += wa * values[b];
    }
    row[terms] += wa * target;
}

// Adds one sample to every row; `values` are the terms' at its point.
#[tactic(auto, unfolding(crate::specs::Fit::sampled), using(crate::proofs::Turns::turns))]
fn add_sample(m: &mut [[f64; 17]; 16], terms: usize, values: &[f64; 16], target: f64)
    requires { terms ≤ 16 }
    ensures { m.new ≡ sampled terms values.now target m.old }
{
    for a in 0..terms {
        add_row(&mut m[a], terms, values, values[a], target);
    }
}

// Adds all samples of the curve.
#[tactic(auto, unfolding(crate::specs::Fit::equations, crate::specs::Fit::sample_at), using(crate::proofs::Turns::turns))]
pub fn add_samples(m: &mut [[f64; 17]; 16], basis: &Basis, sampled: &SampledCurve)
    ensures { m.new ≡ equations basis.now.terms basis.now.scales sampled.now.curve m.old }
{
    for j in 0..sampled.curve.samples {
        let mut values = [0.0; 16];
        basis.fill_values(&mut values, sampled.us[j]);
        add_sample(m, basis.terms, &values, sampled.targets[j]);
    }
}

// Raises the diagonal, which keeps the equations solvable.
#[tactic(auto, unfolding(crate::specs::Fit::ridged), using(crate::proofs::Turns::turns))]
pub fn add_ridge(m: &mut [[f64; 17]; 16], terms: usize)
    requires { terms ≤ 16 }
    ensures { m.new ≡ ridged terms m.old }
{
    for i in 0..terms {
        m[i][i] += 1e-12;
    }
}

// Solves the normal equations for the coefficients, and tells how; where that fails, one term stands for all.
#[tactic(auto, unfolding(crate::specs::Fit::coefficients_of, crate::specs::FitEnd::ended_fit))]
pub fn solve_for(coefficients: &mut [f64; 16], m: &mut [[f64; 17]; 16], terms: usize) -> Fit
    requires { terms ≤ 16 }
    ensures coefficients_after { coefficients.new
        ≡ coefficients_of terms coefficients.old (eliminated terms m.old) }
    ensures value { result ≡ ended_fit (eliminated terms m.old) }
{
    match eliminate(m, terms) {
        Ok(pivot) => {
            copy_out(m, terms, coefficients);
            Fit::Fitted(pivot)
        }
        Err(FlatPivot { column }) => {
            coefficients[terms / 2] = 1.0;
            Fit::Fallback(column)
        }
    }
}
