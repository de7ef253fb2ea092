// The radial factor of each stored radius.
use radial::radial_g;
use std::io;
use test_arguments::lists::radii;
use test_words::{put_end, put_floats};

pub fn put_radii(rt: &impl Print) -> io::Result<()> {
    for t in radii() {
        print!(rt; "radial")?;
        put_floats(rt, &[t, radial_g(t)])?;
        put_end(rt)?;
    }
    Ok(())
}
