// The meshes of the tables.
// Internal: a function with a `requires` is called by proved code alone.
ghost use Rattle.std.specs.Prelude.{◌≤◌, ◌<◌};

use crate::tables::{COORDINATES, CORNERS, SIZES};
use test_words::floats_of;

// The coordinates of mesh m.
pub fn load_coordinates(m: usize) -> [f64; 24]
    requires { m < 18 }
{
    floats_of(&COORDINATES[24 * m..24 * m + 24])
}

// The corners of mesh m.
pub fn load_corners(m: usize) -> [u32; 36]
    requires { m < 18 }
{
    let mut faces = [0; 36];
    faces.copy_from_slice(&CORNERS[36 * m..36 * m + 36]);
    faces
}

// How many coordinates mesh m has.
pub fn coordinate_count(m: usize) -> usize
    requires { m < 18 }
    ensures { result ≤ 24 }
{
    SIZES[2 * m].min(24)
}

// How many corners it has.
pub fn corner_count(m: usize) -> usize
    requires { m < 18 }
    ensures { result ≤ 36 }
{
    SIZES[2 * m + 1].min(36)
}
