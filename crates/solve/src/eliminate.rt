// The choice of pivot and the elimination. The matrix and n stay apart, for the reason that stands in `matrix`.
// Internal: a function with a `requires` is called by proved code alone.
ghost use Rattle.std.specs.Prelude.{◌≡◌, ◌≤◌};
ghost use Rattle.solve.specs.Elimination.{better, smaller, ended_as, eliminated};

use crate::matrix::{scale, sweep};
use base::floats::abs;

// What ends an elimination early: the column, from 0, whose pivot is flat.
#[derive(Clone, Copy)]
pub struct FlatPivot {
    pub column: u32,
}

// A pivot candidate: its row, and its absolute value.
#[derive(Clone, Copy)]
pub struct Pivot {
    pub row: usize,
    pub value: f64,
}

// The candidate so far, or the new one, which a tie and a NaN take.
#[tactic(auto, unfolding(crate::specs::Elimination::better))]
fn better(best: Pivot, row: usize, value: f64) -> Pivot
    ensures { result ≡ better best row value }
{
    if best.value > value {
        return best;
    }
    Pivot { row, value }
}

// The smallest pivot with one more; a NaN stays.
#[tactic(auto, unfolding(crate::specs::Elimination::smaller))]
fn smaller_of(smallest: f64, value: f64) -> f64
    ensures { result ≡ smaller smallest value }
{
    if value < smallest {
        return value;
    }
    if value != value {
        return value;
    }
    smallest
}

// Reduces the matrix of n rows, column by column, and answers the smallest accepted pivot, in absolute value. The
// candidates of a column are the rows from the diagonal down; one turn past the last of them judges the best. A flat
// one leaves both loops by one labelled break, as 01 asks. Any other is brought to the diagonal and divided by, and
// its column is cleared in all other rows.
#[tactic(auto, using(crate::proofs::Columns::pivots), unfolding(crate::specs::Elimination::pivot_of, crate::specs::Elimination::column_at))]
pub fn eliminate(m: &mut [[f64; 17]; 16], n: usize) -> Result<f64, FlatPivot>
    requires { n ≤ 16 }
    ensures { ended_as result m.new ≡ eliminated n m.old }
{
    let mut flat = None;
    let mut smallest = f64::INFINITY;
    'columns: for col in 0..n {
        let mut best = Pivot {
            row: col,
            value: abs(m[col][col]),
        };
        for row in col + 1..n + 1 {
            if row < n {
                best = better(best, row, abs(m[row][col]));
            } else if best.value <= 1e-18 {
                let column = col as u32;
                flat = Some(FlatPivot { column });
                break 'columns;
            }
        }
        m.swap(col, best.row);
        scale(m, n, col);
        sweep(m, n, col);
        smallest = smaller_of(smallest, best.value);
    }
    match flat {
        Some(pivot) => Err(pivot),
        None => Ok(smallest),
    }
}
