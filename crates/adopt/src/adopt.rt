// The adoption: what a place of another store holds, written into a place of this one. The other store is only read.
ghost use Rattle.std.specs.Prelude.{◌≡◌, ◌+◌, ◌*◌, ◌≤◌, ◌<◌, length};
ghost use Rattle.layout.specs.After.{after};
ghost use Rattle.layout.specs.Layout.{width, place_limit, coords_from, corners_from};
ghost use Rattle.adopt.specs.Adopt.{adopted_floats, adopted_words, adopt_step};
ghost use Rattle.adopt.specs.AdoptAnswer.{adopting};

use crate::check::check_adopt;
use crate::same::same_body;
use base::refusal::Refusal;
use layout::left::{left_at, pieces};
use layout::offsets::{KERNEL, KERNEL_SIZE, PIECE, PIECES_SIZE, STATE, WIDTH};
use layout::runs::copy;

// What came across: the pieces of the place and the steps that it has left.
#[derive(Clone, Copy)]
pub struct Adopted {
    pub pieces: u32,
    pub left: u64,
}

// The kernel, its error and its pieces with their volumes so far.
fn take_floats(floats: &mut [f64], i: usize, other_floats: &[f64], j: usize)
    requires { (i < place_limit) × (j < place_limit) × (coords_from ≤ length floats.old)
        × (coords_from ≤ length other_floats.now) }
    ensures { floats.new
        ≡ adopted_floats floats.old i other_floats.now j }
{
    let kernel = KERNEL + KERNEL_SIZE * j;
    copy(
        floats,
        KERNEL + KERNEL_SIZE * i,
        &other_floats[kernel..kernel + KERNEL_SIZE],
    );
    let piece = PIECE + PIECES_SIZE * j;
    copy(
        floats,
        PIECE + PIECES_SIZE * i,
        &other_floats[piece..piece + PIECES_SIZE],
    );
}

// The status, the steps and the layer.
fn take_words(words: &mut [u32], i: usize, other_words: &[u32], j: usize)
    requires { (i < place_limit) × (j < place_limit) × (corners_from width ≤ length words.old)
        × (corners_from width ≤ length other_words.now) }
    ensures { words.new
        ≡ adopted_words width words.old i other_words.now j }
{
    let state = STATE + WIDTH * j;
    copy(words, STATE + WIDTH * i, &other_words[state..state + WIDTH]);
}

// Takes a filled place of another store of the same body into a place of this one, whatever that held: its kernel,
// layer, pieces, error, volumes so far and steps. Where the bodies differ nothing is changed, and nothing came across.
#[tactic(auto, unfolding(crate::specs::Adopt::adopt_step), using(crate::proofs::Adopts::adopt_passes))]
pub fn adopt(
    floats: &mut [f64],
    words: &mut [u32],
    place: u32,
    other_floats: &[f64],
    other_words: &[u32],
    other_place: u32,
) -> Result<Option<Adopted>, Refusal>
    ensures { after (adopting result) floats.new words.new
        ≡ adopt_step width floats.old words.old place other_floats.now
        other_words.now other_place }
{
    check_adopt(floats, words, place, other_floats, other_words, other_place)?;
    if !same_body(floats, words, other_floats, other_words) {
        return Ok(None);
    }
    let j = other_place as usize;
    let count = pieces(other_words[STATE + WIDTH * j]);
    let left = left_at(other_words, j, other_words[1] as usize);
    take_floats(floats, place as usize, other_floats, j);
    take_words(words, place as usize, other_words, j);
    Ok(Some(Adopted {
        pieces: count as u32,
        left: left as u64,
    }))
}
