// Between the matrix and the lent runs. The matrix and n stay apart, and the loops go by the row's number, for the reason
// that stands in `matrix`.
// Internal: a function with a `requires` is called by proved code alone.
ghost use Rattle.std.specs.Prelude.{◌≡◌, ◌+◌, ◌*◌, ◌≤◌, length};
ghost use Rattle.solve.specs.Solve.{row_of, loaded, answers};

// Writes n + 1 floats of a run, from a place on, over the start of a row.
#[tactic(auto, using(crate::proofs::Turns::row_copied))]
fn load_row(row: &mut [f64; 17], cells: &[f64], n: usize, from: usize)
    requires { (n ≤ 16) × (from + n + 1 ≤ length cells.now) }
    ensures { row.new ≡ row_of n cells.now from row.old }
{
    row[..n + 1].copy_from_slice(&cells[from..from + n + 1]);
}

// Writes n rows of n + 1 floats of a run over the start of the matrix.
#[tactic(auto, using(crate::proofs::Turns::turns), unfolding(crate::specs::Solve::loaded))]
pub fn load(m: &mut [[f64; 17]; 16], cells: &[f64], n: usize)
    requires { (n ≤ 16) × (length cells.now ≡ n * (n + 1)) }
    ensures { m.new ≡ loaded n cells.now m.old }
{
    for row in 0..n {
        load_row(&mut m[row], cells, n, row * (n + 1));
    }
}

// Writes column n of the matrix over the first n words of the answer.
#[tactic(auto, using(crate::proofs::Turns::turns), unfolding(crate::specs::Solve::answers, base::specs::Loops::table))]
pub fn copy_out(m: &[[f64; 17]; 16], n: usize, answer: &mut [f64])
    requires { (n ≤ 16) × (n ≤ length answer.old) }
    ensures { answer.new ≡ answers n m.now answer.old }
{
    for i in 0..n {
        answer[i] = m[i][n];
    }
}
