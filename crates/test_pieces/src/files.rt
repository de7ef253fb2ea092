// Kernels as they arrive from a file, carried to metres.
ghost use Rattle.std.specs.Prelude.{◌<◌};

use crate::tables::{FILES, GIVEN};
use base::floats::from_pattern;
use kernel::file::{Kilometres, kernel_from_file};
use std::io;
use test_words::{put_call, put_end, put_floats};

// Float j of file kernel i.
fn file_float(i: usize, j: usize) -> f64
    requires { (i < 15) × (j < 7) }
{
    from_pattern(FILES[7 * i + j])
}

fn file_exponent(i: usize) -> Option<f64>
    requires { i < 15 }
{
    if GIVEN[i] {
        Some(file_float(i, 5))
    } else {
        None
    }
}

fn put_file(rt: &impl Print, i: usize) -> io::Result<()>
    requires { i < 15 }
{
    let lengths = Kilometres(
        [file_float(i, 0), file_float(i, 1), file_float(i, 2)],
        file_float(i, 3),
    );
    let k = kernel_from_file(
        lengths,
        file_float(i, 4),
        file_exponent(i),
        file_float(i, 6),
    );
    put_call(rt, "file", i)?;
    put_floats(rt, &k.c)?;
    put_floats(rt, &[k.sigma, k.w, k.alpha])?;
    put_end(rt)
}

// All file kernels.
pub fn put_files(rt: &impl Print) -> io::Result<()> {
    for i in 0..15 {
        put_file(rt, i)?;
    }
    Ok(())
}
