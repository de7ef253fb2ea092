// The pieces of a kernel: itself where its exponent is near 1, else a fit by kernels of exponent 1.
ghost use Rattle.std.specs.Prelude.{◌≡◌, ◌<◌, ◌≤◌};
ghost use Rattle.pieces.specs.Pieces.{size_of, none, itself, keep, kept, solved_by, fitted, decomposed, piece_alpha};
ghost use Rattle.pieces.specs.FitEnd.{ended_fit, fit_of};

use crate::basis::Basis;
use crate::fit::Fit;
use crate::normal::{add_ridge, add_samples, solve_for};
use crate::points::{Curve, SampledCurve};
use base::floats::{abs, greater_of};
use kernel::kernel::Kernel;
use powers::power::log10;

// The size of a fit: how many terms and samples.
#[derive(Clone, Copy)]
pub struct Size {
    pub terms: usize,
    pub samples: usize,
}

// A piece: its centre is the kernel's, its weight the kernel's times the coefficient.
#[derive(Clone, Copy)]
pub struct Piece {
    pub sigma: f64,
    pub coefficient: f64,
}

// The pieces of a kernel, the first `count` of the array, the rest of which is +0, and the fit's peak error. (No ghost
// field says `count ≤ 16`: the definitions `none`, `itself` and `keep` build the value, and would carry its proof.)
#[derive(Clone, Copy)]
pub struct Pieces {
    pub count: usize,
    pub list: [Piece; 16],
    pub error: f64,
}

// The pieces of a kernel, and how their fit ended.
#[derive(Clone, Copy)]
pub struct Decomposition {
    pub pieces: Pieces,
    pub fit: Fit,
}

// The size of the fit of an exponent that is delta away from 1. A NaN has a fit without terms, not `None`: the theorem
// `nan_alpha` is of the error that this fit answers.
#[tactic(auto, unfolding(crate::specs::Pieces::size_of))]
pub fn size_of(delta: f64) -> Size
    ensures { result ≡ size_of delta }
{
    if delta <= 1.0 {
        Size {
            terms: 13,
            samples: 39,
        }
    } else if delta > 1.0 {
        Size {
            terms: 16,
            samples: 48,
        }
    } else {
        Size {
            terms: 0,
            samples: 24,
        }
    }
}

impl Pieces {
    // No piece, of a fit with this peak error.
    fn none(error: f64) -> Pieces
        ensures { result ≡ none error }
    {
        let blank = Piece {
            sigma: 0.0,
            coefficient: 0.0,
        };
        Pieces {
            count: 0,
            list: [blank; 16],
            error,
        }
    }

    // The one piece of a kernel that stays.
    fn itself(k: Kernel) -> Pieces
        ensures { result ≡ itself k }
    {
        let mut pieces = Pieces::none(0.0);
        pieces.count = 1;
        pieces.list[0] = Piece {
            sigma: k.sigma,
            coefficient: 1.0,
        };
        pieces
    }

    // Adds a piece if its coefficient is not negligible; a NaN is dropped.
    #[tactic(auto, unfolding(crate::specs::Pieces::keep))]
    fn keep(&mut self, sigma: f64, coefficient: f64)
        requires { self.old.count < 16 }
        ensures { self.new ≡ keep self.old sigma coefficient }
    {
        if abs(coefficient) > 1e-12 {
            self.list[self.count] = Piece { sigma, coefficient };
            self.count += 1;
        }
    }

    // Adds the pieces of all terms, in the order of the scales.
    #[tactic(auto, unfolding(crate::specs::Pieces::kept), using(crate::proofs::Turns::turns))]
    fn keep_terms(&mut self, basis: &Basis, coefficients: &[f64; 16], sigma: f64)
        requires { self.old.count ≡ 0 }
        ensures { self.new ≡ kept basis.now.terms sigma basis.now.scales coefficients.now self.old }
    {
        for i in 0..basis.terms {
            self.keep(sigma * basis.scales[i], coefficients[i]);
        }
    }
}

// Samples the curve, fits it and keeps the pieces.
fn fit(terms: usize, curve: Curve, sigma: f64) -> Decomposition
    requires { (terms ≤ 16) × (terms ≡ 1 → ⊥) × (1 < curve.samples) × (curve.samples ≤ 48) }
    ensures { (result.pieces ≡ fitted terms curve sigma) × (result.fit ≡ ended_fit (solved_by terms curve)) }
{
    let sampled = SampledCurve::of(curve);
    let basis = Basis::of(terms);
    let mut m = [[0.0; 17]; 16];
    add_samples(&mut m, &basis, &sampled);
    add_ridge(&mut m, terms);
    let mut coefficients = [0.0; 16];
    let fit = solve_for(&mut coefficients, &mut m, terms);
    let mut pieces = Pieces::none(basis.peak_error(&coefficients, &sampled));
    pieces.keep_terms(&basis, &coefficients, sigma);
    Decomposition { pieces, fit }
}

// (The test of an exponent of 1 is not strict, here and in `piece_alpha`, as it is in density's `density_of`: each is as
// its definition has it, so no method of `Kernel` is both.)
//
// The pieces of a kernel on a body of this radius, `adaptive_cauchy_decompose` of native density.rs for one kernel, and
// how their fit ended.
#[tactic(auto, unfolding(crate::specs::Pieces::decomposed, crate::specs::FitEnd::fit_of), using(crate::specs::PieceLaws::sized))]
pub fn decompose(k: Kernel, radius: f64) -> Decomposition
    ensures { (result.pieces ≡ decomposed k radius) × (result.fit ≡ fit_of k radius) }
{
    let delta = abs(k.alpha - 1.0);
    if delta <= 1e-9 {
        return Decomposition {
            pieces: Pieces::itself(k),
            fit: Fit::Kept,
        };
    }
    let size = size_of(delta);
    let reach = log10(greater_of(1.0, k.sigma * greater_of(1.0, radius)));
    let curve = Curve {
        alpha: k.alpha,
        samples: size.samples,
        reach,
    };
    let fitted = fit(size.terms, curve, k.sigma);
    if k.alpha != k.alpha {
        return Decomposition {
            fit: Fit::NoExponent,
            ..fitted
        };
    }
    fitted
}

// The exponent of every piece of a kernel of exponent alpha.
#[tactic(auto, unfolding(crate::specs::Pieces::piece_alpha))]
pub fn piece_alpha(alpha: f64) -> f64
    ensures { result ≡ piece_alpha alpha }
{
    if abs(alpha - 1.0) <= 1e-9 { alpha } else { 1.0 }
}
