// The linear solver of 01, "Solve": Gauss-Jordan elimination of at most 16 rows, with a choice of
// pivot. The exported `solve_linear_system` has no `requires`.
#![tactic(auto)]

pub mod eliminate;
pub mod matrix;
pub mod runs;

ghost use Rattle.std.specs.Prelude.{◌≡◌};
ghost use Rattle.base.specs.Answers.{outcome};
ghost use Rattle.solve.specs.Solve.{solved_as, solution};

use crate::eliminate::{FlatPivot, eliminate};
use crate::runs::{copy_out, load};
use base::refusal::Refusal;

// Why a system has no answer: a pivot is flat, which is refusal 11 with its column, or another refusal.
#[derive(Clone, Copy)]
pub enum Unsolved {
    Flat(FlatPivot),
    Refused(Refusal),
}

impl From<FlatPivot> for Unsolved {
    ghost use Rattle.solve.specs.declared.Unsolved.{Unsolved};

    ghost from_gives = { λ p e. e ≡ Unsolved.Flat p };

    fn from(pivot: FlatPivot) -> Unsolved {
        Unsolved::Flat(pivot)
    }
}

// Solves n rows of n + 1 floats, given row after row, and writes the n unknowns to the answer; tells the smallest
// accepted pivot, in absolute value. Words past n, and the whole answer at an error, stay as they were.
#[tactic(auto, unfolding(crate::specs::Solve::solution, crate::specs::Solve::concluded))]
pub fn solve_linear_system(n: usize, cells: &[f64], answer: &mut [f64]) -> Result<f64, Unsolved>
    ensures { outcome (solved_as result) answer.new
        ≡ solution n cells.now answer.old }
{
    if n > 16 || cells.len() != n * (n + 1) || answer.len() < n {
        return Err(Unsolved::Refused(Refusal::BadMatrix));
    }
    let mut m = [[0.0; 17]; 16];
    load(&mut m, cells, n);
    let pivot = eliminate(&mut m, n)?;
    copy_out(&m, n, answer);
    Ok(pivot)
}
