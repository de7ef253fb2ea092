// Runs every call over a mesh or a list of kernels on stored arguments and writes a line for each: its
// name, the numbers of its arguments in the tables, 01's number of a refusal or 0, and the bits of its
// values. Then the radial factor of each stored radius, and Dunavant's figures and moments. What it writes
// is held to the file stdout beside src/, which the proved code did not make: it is what the original's
// own text answers with the second transcription of 01's powers, as `cargo run --release --bin stored
// volumes` in oracle/ writes it; `.. volumes --table` writes the tables.
#![tactic(auto)]

mod lines;
mod lists;
mod meshes;
mod radii;

use std::io;

fn main(rt: HostRuntime) -> io::Result<()> {
    meshes::put_meshes(&rt)?;
    lists::put_lists(&rt)?;
    radii::put_radii(&rt)?;
    test_rule::put_figures(&rt)?;
    test_rule::put_moments(&rt)
}
