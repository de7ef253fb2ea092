// Refusals 4 to 7 of a call on a store, and 16 of a layer. The checks that a call makes have no `requires`. Internal:
// `room`, `long_enough` and `words_sound`, by which they are made for any words to a place, have one and are called by
// proved code alone.
ghost use Rattle.std.specs.Prelude.{◌≡◌, ◌&&◌, ◌+◌, ◌*◌, ◌≤◌, length, leb};
ghost use Rattle.base.specs.Loops.{every};
ghost use Rattle.layout.specs.Layout.{width, place_limit, coords_from, state_from, corners_from, faces_of};
ghost use Rattle.layout.specs.Soundness.{long_enough, place_sound, place_sound_at, layer_sound, layer_check, sound};
ghost use Rattle.layout.specs.Soundness.{store_check, place_check, filled_check};

use crate::offsets::{COORDS, DONE, FINISHED, LAYER, LAYERS, PIECES, PLACES, STATE, WIDTH};
use base::refusal::Refusal;
use mesh::check::{FACE_LIMIT, VERTEX_LIMIT};

// Whether runs of so many floats and words are as long as the counts of vertices and faces ask, where the corners begin
// at word `corners`. The counts may be anything up to 2^32 - 1.
pub fn room(floats: usize, words: usize, corners: usize, verts: u32, faces: u32) -> bool
    requires { corners ≤ corners_from width }
    ensures { result ≡ (leb (corners + 3 * faces) words && leb (coords_from + 3 * verts) floats) }
{
    (words >= corners + 3 * (faces as usize)) & (floats >= COORDS + 3 * (verts as usize))
}

// Whether both runs are as long as their counts ask, with q words to a place.
#[tactic(auto, unfolding(crate::specs::Soundness::long_enough))]
pub fn long_enough(floats: &[f64], words: &[u32], q: usize) -> bool
    requires { q ≤ width }
    ensures { result ≡ long_enough q floats.now words.now }
{
    let corners = STATE + q * PLACES;
    if words.len() < corners {
        return false;
    }
    room(floats.len(), words.len(), corners, words[0], words[1])
}

// Whether a place's status, pieces finished and faces done go together.
#[tactic(auto, unfolding(crate::specs::Soundness::place_sound))]
fn place_sound(status: u32, finished: u32, done: u32, faces: u32) -> bool
    ensures { result ≡ place_sound status finished done faces }
{
    if status as usize > 1 + PIECES {
        return false;
    }
    if status == 0 {
        return (finished == 0) & (done == 0);
    }
    let pieces = status - 1;
    if finished > pieces {
        return false;
    }
    if finished == pieces {
        done == 0
    } else {
        done < faces
    }
}

// Whether a place's layer goes with its status.
#[tactic(auto, unfolding(crate::specs::Soundness::layer_sound))]
fn layer_sound(status: u32, layer: u32) -> bool
    ensures { result ≡ layer_sound status layer }
{
    if status == 0 {
        layer == 0
    } else {
        layer < LAYERS
    }
}

// Whether the words of place i go together, with q of them to a place: only a fourth is a layer.
#[tactic(auto, unfolding(crate::specs::Soundness::place_sound_at), using(crate::specs::SoundLaws::layer_none))]
fn record_sound(words: &[u32], q: usize, i: usize) -> bool
    requires { (3 ≤ q) × (q ≤ width) × (state_from q i + q ≤ length words.now) }
    ensures { result ≡ place_sound_at q words.now i }
{
    let at = q * i;
    let status = words[STATE + at];
    if !place_sound(status, words[FINISHED + at], words[DONE + at], words[1]) {
        return false;
    }
    if q < WIDTH {
        return true;
    }
    layer_sound(status, words[LAYER + at])
}

// Whether every place's words go together.
#[tactic(auto, unfolding(base::specs::Loops::every))]
fn places_sound(words: &[u32], q: usize) -> bool
    requires { (3 ≤ q) × (q ≤ width) × (corners_from q ≤ length words.now) }
    ensures { result ≡ every (place_sound_at q words.now) place_limit }
{
    for i in 0..PLACES {
        if !record_sound(words, q, i) {
            return false;
        }
    }
    true
}

// Whether the counts, the places and the corners are sound, in runs that are long enough.
#[tactic(auto, unfolding(crate::specs::Soundness::sound))]
pub fn words_sound(words: &[u32], q: usize) -> bool
    requires { (3 ≤ q) × (q ≤ width) × (corners_from q + 3 * faces_of words.now ≤ length words.now) }
    ensures { result ≡ sound q words.now }
{
    let verts = words[0];
    let faces = words[1];
    let few = (verts <= VERTEX_LIMIT) & (faces <= FACE_LIMIT);
    if !few || !places_sound(words, q) {
        return false;
    }
    let corners = STATE + q * PLACES;
    let end = corners + 3 * (faces as usize);
    mesh::check::all_below(&words[corners..end], verts)
}

// Refusal 4 or 5 of a store.
#[tactic(auto, unfolding(crate::specs::Soundness::store_check), using(crate::specs::SoundLaws::long_words))]
pub fn check_store(floats: &[f64], words: &[u32]) -> Result<(), Refusal>
    ensures { result ≡ store_check width floats.now words.now }
{
    if !long_enough(floats, words, WIDTH) {
        return Err(Refusal::ShortStore);
    }
    if !words_sound(words, WIDTH) {
        return Err(Refusal::Unsound);
    }
    Ok(())
}

// Refusal 4, 5 or 6 of a call that names a place.
#[tactic(auto, unfolding(crate::specs::Soundness::place_check))]
pub fn check_place(floats: &[f64], words: &[u32], place: u32) -> Result<(), Refusal>
    ensures { result ≡ place_check width floats.now words.now place }
{
    check_store(floats, words)?;
    if place as usize >= PLACES {
        return Err(Refusal::NoPlace);
    }
    Ok(())
}

// Refusal 4, 5, 6 or 7 of a call that wants the place filled.
#[tactic(auto, unfolding(crate::specs::Soundness::filled_check), using(crate::specs::SoundLaws::place_open))]
pub fn check_filled(floats: &[f64], words: &[u32], place: u32) -> Result<(), Refusal>
    ensures { result ≡ filled_check width floats.now words.now place }
{
    check_place(floats, words, place)?;
    if words[STATE + WIDTH * (place as usize)] == 0 {
        return Err(Refusal::Vacant);
    }
    Ok(())
}

// Refusal 16 of a layer that is given to a put.
#[tactic(auto, unfolding(crate::specs::Soundness::layer_check))]
pub fn check_layer(layer: u32) -> Result<(), Refusal>
    ensures { result ≡ layer_check layer }
{
    if layer >= LAYERS {
        return Err(Refusal::NoLayer);
    }
    Ok(())
}
