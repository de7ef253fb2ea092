// What a reading sees of a store's places. Whether it sees a place is decided here and nowhere else, in `shows`.
// Internal: a function with a `requires` is called by proved code alone.
ghost use Rattle.std.specs.Prelude.{◌≡◌, ℕ, true, cond, ◌-◌, ◌≤◌, ◌<◌, ltb, length, take, replicate};
ghost use Rattle.layout.specs.Layout.{width, place_limit, piece_limit, layer_limit, state_from, corners_from};
ghost use Rattle.layout.specs.Layout.{faces_of, status_of, layer_of};
ghost use Rattle.layout.specs.Layers.{in_set, layers_check, in_layers};
ghost use Rattle.readings.specs.Finished.{complete_at};
ghost use Rattle.readings.specs.Seeing.{shown, showing};
ghost use Rattle.layout.specs.Left.{left_of};
ghost use Rattle.layout.specs.Runs.{write};
ghost use Rattle.layout.specs.SoundLaws.{Worded};

use base::refusal::Refusal;
use layout::left::{left, pieces};
use layout::offsets::{CORNERS, FINISHED, LAYER, PLACES, STATE, WIDTH};
use layout::runs::{fill, word};

// Refusal 16 of a set of layers: a bit from 16 on names a layer above 15.
#[tactic(auto, unfolding(layout::specs::Layers::layers_check))]
pub fn check_layers(layers: u32) -> Result<(), Refusal>
    ensures { result ≡ layers_check layers }
{
    if layers >= 65536 {
        return Err(Refusal::NoLayer);
    }
    Ok(())
}

// Whether a layer is in a set.
fn in_set(layers: u32, layer: u32) -> bool
    requires { layer < layer_limit }
    ensures { result ≡ in_set layers layer }
{
    (layers >> layer) % 2 == 1
}

// Whether place i has no step left: all of its pieces are finished.
#[tactic(auto, unfolding(crate::specs::Finished::complete_at))]
fn complete(words: &[u32], i: usize) -> bool
    requires fact_1 { corners_from width ≤ length words.now }
    requires fact_2 { i < place_limit }
    ensures { result ≡ complete_at width words.now i }
{
    let row = WIDTH * i;
    word(words, FINISHED + row) == pieces(words[STATE + row])
}

// Whether a reading sees place i: its layer is in the set and, where only complete places are wanted, it has no step
// left.
fn shows(words: &[u32], layers: u32, only: bool, i: usize) -> bool
    requires fact_1 { corners_from width ≤ length words.now }
    requires fact_2 { (i < place_limit) × (layer_of width words.now i < layer_limit) }
    ensures { result ≡ shown width layers only words.now i }
{
    (!only || complete(words, i)) && in_set(layers, words[LAYER + WIDTH * i])
}

// Place i of the words that are seen: as it is where the reading sees it, else as clear leaves a place, empty.
fn look(seen: &mut [u32], words: &[u32], layers: u32, only: bool, i: usize)
    requires fact_1 { corners_from width ≤ length words.now }
    requires fact_2 { corners_from width ≤ length seen.old }
    requires fact_3 { (i < place_limit) × (layer_of width words.now i < layer_limit) }
    ensures { seen.new
        ≡ cond (shown width layers only words.now i) seen.old
        (write seen.old (state_from width i) (replicate width 0)) }
{
    if !shows(words, layers, only, i) {
        fill(seen, STATE + WIDTH * i, WIDTH, 0);
    }
}

// The words of a sound store up to the corners, with the places that the reading does not see empty. The other
// functions of a reading go over these words, so that they know of no layers.
#[tactic(auto, using(crate::specs::SeenLaws::next_looked, crate::specs::SeenLaws::all_looked))]
fn places(words: &[u32], layers: u32, only: bool) -> [u32; CORNERS]
    requires { (faces : ℕ) × Worded width words.now faces }
    ensures seen { result ≡ take (corners_from width) (showing width layers only words.now) }
    ensures fit { (i : ℕ) → i < place_limit → status_of width result i - 1 ≤ piece_limit }
{
    let mut seen = [0; CORNERS];
    seen.copy_from_slice(&words[..CORNERS]);
    for i in 0..PLACES {
        look(&mut seen, words, layers, only, i);
    }
    seen
}

// The words up to the corners, with the places outside the layers empty.
#[tactic(auto, unfolding(layout::specs::Layers::in_layers, crate::specs::Seeing::showing))]
pub fn seen_places(words: &[u32], layers: u32) -> [u32; CORNERS]
    requires { (faces : ℕ) × Worded width words.now faces }
    ensures seen { result ≡ take (corners_from width) (in_layers width layers words.now) }
    ensures fit { (i : ℕ) → i < place_limit → status_of width result i - 1 ≤ piece_limit }
{
    places(words, layers, false)
}

// The words up to the corners, with the places outside the layers and those with work left empty.
pub fn complete_places(words: &[u32], layers: u32) -> [u32; CORNERS]
    requires { (faces : ℕ) × Worded width words.now faces }
    ensures seen { result ≡ take (corners_from width) (showing width layers true words.now) }
    ensures fit { (i : ℕ) → i < place_limit → status_of width result i - 1 ≤ piece_limit }
{
    places(words, layers, true)
}

// Whether work is left in the places that a reading sees.
#[tactic(auto, using(crate::specs::SeenLaws::seen_ready, crate::specs::SeenLaws::seen_left))]
pub fn unfinished(words: &[u32], layers: u32, faces: usize) -> bool
    requires { Worded width words.now faces }
    ensures { result ≡ ltb 0 (left_of width (in_layers width layers words.now) faces place_limit) }
{
    let seen = seen_places(words, layers);
    0 < left(&seen, faces)
}
