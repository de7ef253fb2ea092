// The runs of a call's line.
use crate::digest::{digest_bytes, digest_floats, digest_words};
use std::io;

// A run of floats that a reading was lent, as it is after it.
pub fn say_run(rt: &impl Print, run: &[f64]) -> io::Result<()> {
    let digest = digest_floats(run);
    print!(rt; " run {digest:016x}")
}

// A run of bytes.
pub fn say_bytes(rt: &impl Print, run: &[u8]) -> io::Result<()> {
    let digest = digest_bytes(run);
    print!(rt; " run {digest:016x}")
}

// The end of a call's line: what both runs are after it.
pub fn say_runs(rt: &impl Print, floats: &[f64], words: &[u32]) -> io::Result<()> {
    let (of_floats, of_words) = (digest_floats(floats), digest_words(words));
    print!(rt; " {of_floats:016x} {of_words:016x}\n")
}
