// The row and matrix operations of the elimination, on a 16 by 17 array whose first n rows and
// n + 1 columns are in use. The matrix and n stay apart: a struct of both would owe in each clause that n stays, in
// place of `n ≤ 16`, and the theorems speak of the whole array, so that the loops here go over the
// rows and columns in use by their numbers.
// Internal: a function with a `requires` is called by proved code alone.
ghost use Rattle.std.specs.Prelude.{◌≡◌, ◌<◌, ◌≤◌};
ghost use Rattle.solve.specs.Elimination.{over, less, cleared, swept, scaled};

use base::floats::abs;

// Divides a row from column col on.
#[tactic(auto, using(crate::proofs::Turns::turns), unfolding(crate::specs::Elimination::over))]
fn divide(row: &mut [f64; 17], n: usize, col: usize, divisor: f64)
    requires { (n ≤ 16) × (col ≤ n) }
    ensures { row.new ≡ over n col divisor row.old }
{
    for j in col..n + 1 {
        row[j] /= divisor;
    }
}

// Divides row col by its pivot, from the pivot on.
pub fn scale(m: &mut [[f64; 17]; 16], n: usize, col: usize)
    requires { (n ≤ 16) × (col < n) }
    ensures { m.new ≡ scaled n col m.old }
{
    let divisor = m[col][col];
    divide(&mut m[col], n, col, divisor);
}

// Subtracts factor times the pivot's row from a row, from column col on.
#[tactic(auto, using(crate::proofs::Turns::turns), unfolding(crate::specs::Elimination::less))]
fn subtract(row: &mut [f64; 17], pivot_row: &[f64; 17], n: usize, col: usize, factor: f64)
    requires { (n ≤ 16) × (col ≤ n) }
    ensures { row.new ≡ less n col pivot_row.now factor row.old }
{
    for j in col..n + 1 {
        row[j] -= factor * pivot_row[j];
    }
}

// Clears column col of a row by the pivot's row; a negligible factor is skipped, its cell left.
#[tactic(auto, unfolding(crate::specs::Elimination::cleared))]
fn clear_row(row: &mut [f64; 17], pivot_row: &[f64; 17], n: usize, col: usize)
    requires { (n ≤ 16) × (col < n) }
    ensures { row.new ≡ cleared n col pivot_row.now row.old }
{
    let factor = row[col];
    if abs(factor) <= 1e-30 {
        return;
    }
    subtract(row, pivot_row, n, col, factor);
}

// Clears column col of every row but row col, which is the pivot's.
#[tactic(auto, using(crate::proofs::Turns::turns), unfolding(crate::specs::Elimination::swept))]
pub fn sweep(m: &mut [[f64; 17]; 16], n: usize, col: usize)
    requires { (n ≤ 16) × (col < n) }
    ensures { m.new ≡ swept n col m.old }
{
    let pivot_row = m[col];
    for row in 0..n {
        if row != col {
            clear_row(&mut m[row], &pivot_row, n, col);
        }
    }
}
