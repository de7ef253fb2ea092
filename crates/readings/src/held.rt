// The pieces of a store as it holds them, each as a kernel of its own. The functions need the floats alone; the methods
// of `Places` are the same for a reading, which has the words beside them.
// Internal: a function with a `requires` is called by proved code alone.
ghost use Rattle.std.specs.Prelude.{◌≡◌, ◌≤◌, ◌<◌, length};
ghost use Rattle.layout.specs.Layout.{place_limit, piece_limit, coords_from};
ghost use Rattle.layout.specs.Layout.{coefficient_of, volume_of, weight_of};
ghost use Rattle.base.specs.Floats.{◌⊗◌};
ghost use Rattle.readings.specs.Readings.{bare, held_piece, held_part, rescaled};

use crate::places::Places;
use kernel::kernel::Kernel;
use layout::offsets::{
    ALPHA, COEFFICIENT, KERNEL, KERNEL_SIZE, PIECE, PIECES_SIZE, VOLUME, WEIGHT,
};
use pieces::pieces::piece_alpha;

// Piece j of place i, with the weight w.
fn piece_of_weight(floats: &[f64], i: usize, j: usize, w: f64) -> Kernel
    requires { (coords_from ≤ length floats.now) × (i < place_limit) × (j < piece_limit) }
    ensures { result ≡ held_piece floats.now i j w }
{
    let at = KERNEL_SIZE * i;
    Kernel {
        c: [
            floats[KERNEL + at],
            floats[KERNEL + 1 + at],
            floats[KERNEL + 2 + at],
        ],
        sigma: floats[PIECE + PIECES_SIZE * i + 3 * j],
        w,
        alpha: piece_alpha(floats[ALPHA + at]),
    }
}

// The weight of piece j of place i: the place's weight times the piece's coefficient.
fn weight_at(floats: &[f64], i: usize, j: usize) -> f64
    requires { (coords_from ≤ length floats.now) × (i < place_limit) × (j < piece_limit) }
    ensures { result ≡ weight_of floats.now i ⊗ coefficient_of floats.now i j }
{
    floats[WEIGHT + KERNEL_SIZE * i] * floats[PIECE + PIECES_SIZE * i + 3 * j + COEFFICIENT]
}

// Piece j of place i.
pub fn piece_at(floats: &[f64], i: usize, j: usize) -> Kernel
    requires { (coords_from ≤ length floats.now) × (i < place_limit) × (j < piece_limit) }
    ensures { result ≡ bare (held_part floats.now i j) }
{
    piece_of_weight(floats, i, j, weight_at(floats, i, j))
}

// Piece j of place i, its weight rescaled.
pub fn rescaled_at(floats: &[f64], i: usize, j: usize, s: f64) -> Kernel
    requires { (coords_from ≤ length floats.now) × (i < place_limit) × (j < piece_limit) }
    ensures { result ≡ rescaled s (bare (held_part floats.now i j)) }
{
    piece_of_weight(floats, i, j, weight_at(floats, i, j) * s)
}

// The volume of piece j of place i, as far as it is summed.
pub fn volume_at(floats: &[f64], i: usize, j: usize) -> f64
    requires { (coords_from ≤ length floats.now) × (i < place_limit) × (j < piece_limit) }
    ensures { result ≡ volume_of floats.now i j }
{
    floats[PIECE + PIECES_SIZE * i + 3 * j + VOLUME]
}

impl<'a> Places<'a> {
    // Piece j of place i.
    pub fn piece_at(self, i: usize, j: usize) -> Kernel
        requires { (i < place_limit) × (j < piece_limit) }
        ensures { result ≡ bare (held_part self.entry.floats.now i j) }
    {
        piece_at(self.floats, i, j)
    }

    // Piece j of place i, its weight rescaled.
    pub fn rescaled_at(self, i: usize, j: usize, s: f64) -> Kernel
        requires { (i < place_limit) × (j < piece_limit) }
        ensures { result ≡ rescaled s (bare (held_part self.entry.floats.now i j)) }
    {
        rescaled_at(self.floats, i, j, s)
    }

    // The volume of piece j of place i, as far as it is summed.
    pub fn volume_at(self, i: usize, j: usize) -> f64
        requires { (i < place_limit) × (j < piece_limit) }
        ensures { result ≡ volume_of self.entry.floats.now i j }
    {
        volume_at(self.floats, i, j)
    }
}
