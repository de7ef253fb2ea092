// The words of a line that the test programs write, and the floats of the tables that they read.
#![tactic(auto)]

use base::floats::{from_pattern, to_pattern};
use base::refusal::Refusal;
use std::io;

// Writes a space and a number.
pub fn put_number(rt: &impl Print, n: u64) -> io::Result<()> {
    print!(rt; " {n}")
}

// Writes a space and the 16 digits of bits.
pub fn put_bits(rt: &impl Print, bits: u64) -> io::Result<()> {
    print!(rt; " {bits:016x}")
}

// Writes a space and the 16 digits of a float's bits.
pub fn put_float(rt: &impl Print, x: f64) -> io::Result<()> {
    put_bits(rt, to_pattern(x))
}

// Writes each of some floats.
pub fn put_floats(rt: &impl Print, floats: &[f64]) -> io::Result<()> {
    for x in floats {
        put_float(rt, *x)?;
    }
    Ok(())
}

pub fn put_end(rt: &impl Print) -> io::Result<()> {
    print!(rt; "\n")
}

// Writes a call's name and the number of its argument, or of its row, in the tables.
pub fn put_call(rt: &impl Print, name: &str, a: usize) -> io::Result<()> {
    print!(rt; "{name} {a}")
}

// Writes 01's number of a refusal.
pub fn put_refusal(rt: &impl Print, refusal: Refusal) -> io::Result<()> {
    put_number(rt, u32::from(refusal) as u64)
}

// Ends the line of a call: 0 and its floats, or 01's number of its refusal.
pub fn put_answer<const N: usize>(
    rt: &impl Print,
    answer: Result<[f64; N], Refusal>,
) -> io::Result<()> {
    match answer {
        Ok(floats) => {
            put_number(rt, 0)?;
            put_floats(rt, &floats)?;
        }
        Err(refusal) => put_refusal(rt, refusal)?,
    }
    put_end(rt)
}

// The floats of these bits, as many as there are, and zeros after them.
pub fn floats_of<const N: usize>(bits: &[u64]) -> [f64; N] {
    let mut floats = [0.0; N];
    for (x, pattern) in floats.iter_mut().zip(bits) {
        *x = from_pattern(*pattern);
    }
    floats
}
