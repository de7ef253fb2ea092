// Counts over the places of a sound store, and the greatest error of its fits. The two counts need the words alone; the
// methods of `Places` are the same for a reading, which has the floats beside them.
// Internal: a function with a `requires` is called by proved code alone.
ghost use Rattle.std.specs.Prelude.{◌≡◌, ℕ, cond, eqb, ◌-◌, ◌*◌, ◌≤◌, ◌<◌, length};
ghost use Rattle.base.specs.Floats.{greater};
ghost use Rattle.layout.specs.Layout.{width, place_limit, piece_limit, corners_from, status_of};
ghost use Rattle.readings.specs.Readings.{held_filled, held_worst};
ghost use Rattle.readings.specs.Counts.{held_pieces};

use crate::places::Places;
use base::floats::greater_of;
use layout::left::pieces;
use layout::offsets::{ERROR, KERNEL_SIZE, PLACES, STATE, WIDTH};

// The pieces of all places.
#[tactic(auto, unfolding(crate::specs::Counts::held_pieces))]
pub fn count_pieces(words: &[u32]) -> usize
    requires long { corners_from width ≤ length words.now }
    requires fit { (i : ℕ) → i < place_limit → status_of width words.now i - 1 ≤ piece_limit }
    ensures { (result ≡ held_pieces width words.now place_limit) × (result ≤ 512) }
{
    let mut sum: usize = 0;
    for i in 0..PLACES {
        sum += pieces(words[STATE + WIDTH * i]);
    }
    sum
}

// The filled places.
#[tactic(auto, unfolding(crate::specs::Readings::held_filled))]
pub fn count_filled(words: &[u32]) -> usize
    requires { corners_from width ≤ length words.now }
    ensures { (result ≡ held_filled width words.now place_limit) × (result ≤ 32) }
{
    let mut sum: usize = 0;
    for i in 0..PLACES {
        sum += usize::from(words[STATE + WIDTH * i] != 0);
    }
    sum
}

impl<'a> Places<'a> {
    // The pieces of all places.
    pub fn pieces(self) -> usize
        ensures { (result ≡ held_pieces width self.entry.words.now place_limit) × (result ≤ 512) }
    {
        count_pieces(self.words)
    }

    // The filled places.
    pub fn filled(self) -> usize
        ensures { (result ≡ held_filled width self.entry.words.now place_limit) × (result ≤ 32) }
    {
        count_filled(self.words)
    }

    // The greatest error of the filled places, +0 with none.
    #[tactic(auto, unfolding(crate::specs::Readings::held_worst))]
    pub fn worst_error(self) -> f64
        ensures { result ≡ held_worst width self.entry.floats.now self.entry.words.now place_limit }
    {
        let mut e = 0.0;
        for i in 0..PLACES {
            if self.status_at(i) != 0 {
                e = greater_of(e, self.floats[ERROR + KERNEL_SIZE * i]);
            }
        }
        e
    }
}
