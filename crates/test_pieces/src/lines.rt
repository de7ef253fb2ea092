// The parts of a line.
use pieces::fit::Fit;
use std::io;
use test_words::{put_call, put_end, put_float, put_floats, put_number};

// Writes a call's name, its row in the tables, how many floats it is given, and how many are lent to it.
pub fn put_sizes(
    rt: &impl Print,
    name: &str,
    row: usize,
    count: usize,
    room: usize,
) -> io::Result<()> {
    put_call(rt, name, row)?;
    put_number(rt, count as u64)?;
    put_number(rt, room as u64)
}

// Writes how a fit ended.
pub fn put_end_of_fit(rt: &impl Print, fit: Fit) -> io::Result<()> {
    match fit {
        Fit::Kept => print!(rt; " kept"),
        Fit::Fitted(pivot) => {
            print!(rt; " fitted")?;
            put_float(rt, pivot)
        }
        Fit::Fallback(column) => {
            print!(rt; " fallback")?;
            put_number(rt, column as u64)
        }
        Fit::NoExponent => print!(rt; " no-exponent"),
    }
}

// Writes the words of a run, and ends the line.
pub fn put_run(rt: &impl Print, words: &[f64]) -> io::Result<()> {
    put_floats(rt, words)?;
    put_end(rt)
}
