// Pieces written as kernels, of one kernel and of a list. The run for them is lent full of sevens, as long
// as the tables say.
// Internal: a function with a `requires` is called by proved code alone.
ghost use Rattle.std.specs.Prelude.{◌≤◌, ◌<◌};

use crate::lines::{put_end_of_fit, put_run, put_sizes};
use crate::tables::{INTO, INTO_ROOM, LIST_SIZES, LISTS};
use base::floats::from_pattern;
use kernel::kernel::Kernel;
use pieces::kernels::decompose_into;
use pieces::lists::decompose_list;
use std::io;
use test_words::{floats_of, put_float, put_number, put_refusal};

// Ends the line of one kernel's pieces.
fn put_decomposed(rt: &impl Print, k: Kernel, radius: f64, out: &mut [f64]) -> io::Result<()> {
    match decompose_into(k, radius, out) {
        Ok(written) => {
            put_number(rt, 0)?;
            put_number(rt, written.pieces as u64)?;
            put_float(rt, written.error)?;
            put_end_of_fit(rt, written.fit)?;
        }
        Err(refusal) => put_refusal(rt, refusal)?,
    }
    put_run(rt, out)
}

// Kernel i of the table.
fn load_kernel(i: usize) -> Kernel
    requires { i < 12 }
{
    Kernel {
        c: [1.0, -2.0, 3.0],
        sigma: from_pattern(INTO[4 * i]),
        w: from_pattern(INTO[4 * i + 1]),
        alpha: from_pattern(INTO[4 * i + 2]),
    }
}

fn put_into(rt: &impl Print, i: usize) -> io::Result<()>
    requires { i < 12 }
{
    let k = load_kernel(i);
    let room = INTO_ROOM[i].min(98);
    put_sizes(rt, "into", i, 6, room)?;
    let mut out = [7.0; 98];
    put_decomposed(rt, k, from_pattern(INTO[4 * i + 3]), &mut out[..room])
}

// The pieces of each kernel of the table.
pub fn put_all_into(rt: &impl Print) -> io::Result<()> {
    for i in 0..12 {
        put_into(rt, i)?;
    }
    Ok(())
}

// Ends the line of a list's pieces.
fn put_listed(rt: &impl Print, kernels: &[f64], radius: f64, out: &mut [f64]) -> io::Result<()> {
    match decompose_list(kernels, radius, out) {
        Ok(written) => {
            put_number(rt, 0)?;
            put_number(rt, written.kernels as u64)?;
            put_number(rt, written.pieces as u64)?;
            put_float(rt, written.error)?;
        }
        Err(refusal) => put_refusal(rt, refusal)?,
    }
    put_run(rt, out)
}

// The floats of list i.
fn load_list(i: usize) -> [f64; 18]
    requires { i < 13 }
{
    floats_of(&LISTS[19 * i..19 * i + 18])
}

// How many floats it has, and the room for its pieces.
fn list_count(i: usize) -> usize
    requires { i < 13 }
    ensures { result ≤ 18 }
{
    LIST_SIZES[2 * i].min(18)
}

fn list_room(i: usize) -> usize
    requires { i < 13 }
    ensures { result ≤ 192 }
{
    LIST_SIZES[2 * i + 1].min(192)
}

fn put_list(rt: &impl Print, i: usize) -> io::Result<()>
    requires { i < 13 }
{
    let list = load_list(i);
    let count = list_count(i);
    let room = list_room(i);
    put_sizes(rt, "list", i, count, room)?;
    let mut out = [7.0; 192];
    put_listed(
        rt,
        &list[..count],
        from_pattern(LISTS[19 * i + 18]),
        &mut out[..room],
    )
}

// The pieces of each list of the table.
pub fn put_lists(rt: &impl Print) -> io::Result<()> {
    for i in 0..13 {
        put_list(rt, i)?;
    }
    Ok(())
}
