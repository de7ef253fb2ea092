// The lists of kernels, places, values and radii of the tables.
// Internal: a function with a `requires` is called by proved code alone.
ghost use Rattle.std.specs.Prelude.{◌≤◌, ◌<◌};

use crate::tables::{KERNELS, LENGTHS, POINTS, RADII, VALUES};
use base::floats::from_pattern;
use mesh::vectors::V3;
use test_words::floats_of;

// The floats of list k.
pub fn load_list(k: usize) -> [f64; 18]
    requires { k < 12 }
{
    floats_of(&KERNELS[18 * k..18 * k + 18])
}

// How many of them there are.
pub fn list_length(k: usize) -> usize
    requires { k < 12 }
    ensures { result ≤ 18 }
{
    LENGTHS[k].min(18)
}

// Place p.
pub fn place(p: usize) -> V3
    requires { p < 10 }
{
    V3 {
        x: from_pattern(POINTS[4 * p]),
        y: from_pattern(POINTS[4 * p + 1]),
        z: from_pattern(POINTS[4 * p + 2]),
    }
}

// The width beside place p.
pub fn width(p: usize) -> f64
    requires { p < 10 }
{
    from_pattern(POINTS[4 * p + 3])
}

// Value i.
pub fn value(i: usize) -> f64
    requires { i < 9 }
{
    from_pattern(VALUES[i])
}

// All radii.
pub fn radii() -> [f64; 41] {
    floats_of(&RADII)
}
