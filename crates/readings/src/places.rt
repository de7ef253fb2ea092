// The places of a sound store, as the sums and counts of a reading go over them.
// Internal: a function with a `requires` is called by proved code alone.
ghost use Rattle.std.specs.Prelude.{ℕ, ◌-◌, ◌≤◌, ◌<◌, length};
ghost use Rattle.layout.specs.Layout.{width, place_limit, piece_limit, coords_from, corners_from, status_of};

use layout::left::pieces;
use layout::offsets::{STATE, WIDTH};

// The floats and the words, up to the corners at least, of a store that passed its check: each place has room for its
// pieces.
#[derive(Clone, Copy)]
pub struct Places<'a> {
    pub floats: &'a [f64],
    pub words: &'a [u32],
    pub ghost floats_held: { coords_from ≤ length floats.now },
    pub ghost words_held: { corners_from width ≤ length words.now },
    pub ghost pieces_fit: { (i : ℕ) → i < place_limit → status_of width words.now i - 1 ≤ piece_limit },
}

impl<'a> Places<'a> {
    ghost use Rattle.std.specs.Prelude.{◌≡◌};

    // The status of place i, 0 where it is empty.
    pub fn status_at(self, i: usize) -> u32
        requires { i < place_limit }
        ensures { result ≡ status_of width self.entry.words.now i }
    {
        self.words[STATE + WIDTH * i]
    }

    // The pieces of place i.
    pub fn pieces_at(self, i: usize) -> usize
        requires { i < place_limit }
        ensures { (result ≡ status_of width self.entry.words.now i - 1) × (result ≤ piece_limit) }
    {
        pieces(self.status_at(i))
    }
}
