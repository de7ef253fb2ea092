// Systems of equations: those of the table, at 01's limits or refused, and one of each size. The run for
// the answer is lent full of sevens, as long as the table says.
// Internal: a function with a `requires` is called by proved code alone.
ghost use Rattle.std.specs.Prelude.{◌≤◌, ◌<◌};

use crate::lines::{put_run, put_sizes};
use crate::tables::{SYSTEM_CELLS, SYSTEM_SIZES};
use base::refusal::Refusal;
use solve::{Unsolved, solve_linear_system};
use std::io;
use test_words::{floats_of, put_float, put_number, put_refusal};

// Ends the line of a system.
fn put_solved(rt: &impl Print, n: usize, cells: &[f64], answer: &mut [f64]) -> io::Result<()> {
    put_number(rt, n as u64)?;
    match solve_linear_system(n, cells, answer) {
        Ok(pivot) => {
            put_number(rt, 0)?;
            put_float(rt, pivot)?;
        }
        Err(Unsolved::Flat(flat)) => {
            put_refusal(rt, Refusal::FlatPivot)?;
            put_number(rt, flat.column as u64)?;
        }
        Err(Unsolved::Refused(refusal)) => put_refusal(rt, refusal)?,
    }
    put_run(rt, answer)
}

// The cells of system i.
fn load_cells(i: usize) -> [f64; 12]
    requires { i < 42 }
{
    floats_of(&SYSTEM_CELLS[12 * i..12 * i + 12])
}

// How many cells it has, and the room for its answer.
fn cell_count(i: usize) -> usize
    requires { i < 42 }
    ensures { result ≤ 12 }
{
    SYSTEM_SIZES[3 * i + 1].min(12)
}

fn answer_room(i: usize) -> usize
    requires { i < 42 }
    ensures { result ≤ 17 }
{
    SYSTEM_SIZES[3 * i + 2].min(17)
}

fn put_system(rt: &impl Print, i: usize) -> io::Result<()>
    requires { i < 42 }
{
    let cells = load_cells(i);
    let count = cell_count(i);
    let room = answer_room(i);
    put_sizes(rt, "solve", i, count, room)?;
    let mut answer = [7.0; 17];
    put_solved(
        rt,
        SYSTEM_SIZES[3 * i],
        &cells[..count],
        &mut answer[..room],
    )
}

// The systems of the table.
pub fn put_systems(rt: &impl Print) -> io::Result<()> {
    for i in 0..42 {
        put_system(rt, i)?;
    }
    Ok(())
}

// The cells of the systems that grow: 1, 1/2, 1/3 and so on.
fn reciprocals() -> [f64; 306] {
    let mut cells = [0.0; 306];
    for (i, x) in cells.iter_mut().enumerate() {
        *x = 1.0 / (i + 1) as f64;
    }
    cells
}

// The system of n rows, `count` cells in all.
fn put_grown(rt: &impl Print, n: usize, count: usize) -> io::Result<()>
    requires { count ≤ 306 }
{
    let cells = reciprocals();
    put_sizes(rt, "grown", n, count, 17)?;
    let mut answer = [7.0; 17];
    put_solved(rt, n, &cells[..count], &mut answer)
}

// A system of each size, and one that is too large.
pub fn put_all_grown(rt: &impl Print) -> io::Result<()> {
    let mut count = 0;
    for n in 0..18 {
        put_grown(rt, n, count.min(306))?;
        count += 2 * (n + 1);
    }
    Ok(())
}
