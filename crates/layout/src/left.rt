// The work that a store has left, by its words.
// Internal: a function with a `requires` is called by proved code alone.
ghost use Rattle.std.specs.Prelude.{◌≡◌, ◌-◌, ◌*◌, ◌≤◌, ◌<◌};
ghost use Rattle.layout.specs.Layout.{width, place_limit};
ghost use Rattle.layout.specs.SoundLaws.{Worded};
ghost use Rattle.layout.specs.Left.{left_at, left_of};

use crate::offsets::{DONE, FINISHED, PLACES, STATE, WIDTH};
use crate::runs::word;

// The pieces of a place, by its status.
pub fn pieces(status: u32) -> usize
    ensures { result ≡ status - 1 }
{
    status.saturating_sub(1) as usize
}

// The steps that place i has left.
#[tactic(auto, using(crate::specs::LeftLaws::left_bound))]
pub fn left_at(words: &[u32], i: usize, faces: usize) -> usize
    requires fact_1 { Worded width words.now faces }
    requires fact_2 { i < place_limit }
    ensures { (result ≡ left_at width words.now faces i) × (result ≤ 33554432) }
{
    let at = WIDTH * i;
    let unfinished = pieces(words[STATE + at]).saturating_sub(word(words, FINISHED + at));
    (unfinished * faces).saturating_sub(word(words, DONE + at))
}

// The steps that all places have left.
#[tactic(auto, unfolding(crate::specs::Left::left_of))]
pub fn left(words: &[u32], faces: usize) -> usize
    requires { Worded width words.now faces }
    ensures { result ≡ left_of width words.now faces place_limit }
{
    let mut sum: usize = 0;
    for i in 0..PLACES {
        sum += left_at(words, i, faces);
    }
    sum
}
