// Runs whole fits, systems of equations, file kernels and pieces that are written as kernels, 01's limits
// among them, and writes a line for each answer: the arguments or their row in the tables, 01's number of
// a refusal or 0, and the values. Floats are written as their bits, and of a lent run every word. What it
// writes is held to the file stdout beside src/, which the proved code did not make: it is what the
// original's own text answers with the second transcription of 01's powers, as `cargo run --release --bin
// stored pieces` in oracle/ writes it; `.. pieces --table` writes the tables.
#![tactic(auto)]

mod files;
mod fits;
mod lines;
mod systems;
mod tables;
mod written;

use std::io;

fn main(rt: HostRuntime) -> io::Result<()> {
    fits::put_fits(&rt)?;
    systems::put_systems(&rt)?;
    systems::put_all_grown(&rt)?;
    files::put_files(&rt)?;
    written::put_all_into(&rt)?;
    written::put_lists(&rt)
}
