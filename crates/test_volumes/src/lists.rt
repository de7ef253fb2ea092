// The density of each stored list of kernels at each place.
// Internal: a function with a `requires` is called by proved code alone.
ghost use Rattle.std.specs.Prelude.{◌<◌};

use crate::lines::put_pair;
use density::densitize::densitize;
use source::density::density_at;
use std::io;
use test_arguments::lists::{list_length, load_list, place};
use test_words::put_answer;

// Writes the density of a list at place p, native and source.
fn put_densities(rt: &impl Print, k: usize, p: usize, list: &[f64]) -> io::Result<()>
    requires { p < 10 }
{
    let x = place(p);
    put_pair(rt, "density", k, p)?;
    put_answer(rt, densitize(list, [x.x, x.y, x.z]).map(|d| [d]))?;
    put_pair(rt, "source-density", k, p)?;
    put_answer(rt, density_at(list, x).map(|d| [d]))
}

// Writes the densities of a list at every place.
fn put_places(rt: &impl Print, k: usize, list: &[f64]) -> io::Result<()> {
    for p in 0..10 {
        put_densities(rt, k, p, list)?;
    }
    Ok(())
}

fn put_list(rt: &impl Print, k: usize) -> io::Result<()>
    requires { k < 12 }
{
    let list = load_list(k);
    let n = list_length(k);
    put_places(rt, k, &list[..n])
}

// The densities of all lists.
pub fn put_lists(rt: &impl Print) -> io::Result<()> {
    for k in 0..12 {
        put_list(rt, k)?;
    }
    Ok(())
}
