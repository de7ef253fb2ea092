// Put. The exported call has no `requires`; a refused one changes nothing. Internal: `put_sound`, which has one.
ghost use Rattle.std.specs.Prelude.{◌≡◌, [], ◌∷◌, ◌+◌, ◌*◌, ◌≤◌, ◌<◌, length};
ghost use Rattle.layout.specs.Runs.{write};
ghost use Rattle.layout.specs.Layout.{width, place_limit, piece_limit, coords_from, corners_from, faces_of};
ghost use Rattle.std.specs.Result.{result_and};
ghost use Rattle.base.specs.Answers.{passed};
ghost use Rattle.layout.specs.Soundness.{place_check, layer_check};
ghost use Rattle.layout.specs.After.{after};
ghost use Rattle.store.specs.Puts.{seven, fresh, at_first, put_floats, put_words, put_step_lem};
ghost use Rattle.store.specs.PutAnswer.{placed};

use base::refusal::Refusal;
use kernel::kernel::{Kernel, write_six};
use layout::check::{check_layer, check_place};
use layout::offsets::{KERNEL, KERNEL_SIZE, PIECE, PIECES_SIZE, STATE, WIDTH};
use layout::runs::copy;
use pieces::fit::Fit;
use pieces::pieces::{Pieces, decompose};

// What was placed: the kernel's pieces, the steps that they need, and how their fit ended.
#[derive(Clone, Copy)]
pub struct Placed {
    pub pieces: u32,
    pub steps: u32,
    pub fit: Fit,
}

// A kernel's seven floats: its own six, and its fit's error.
fn write_seven(floats: &mut [f64], at: usize, k: Kernel, error: f64)
    requires { at + 7 ≤ length floats.old }
    ensures { floats.new ≡ write floats.old at (seven k error) }
{
    write_six(floats, at, k);
    floats[at + 6] = error;
}

// The pieces, each with a volume of +0; those past the last are +0 in the fit.
fn write_pieces(floats: &mut [f64], at: usize, fit: Pieces)
    requires { at + 48 ≤ length floats.old }
    ensures { floats.new ≡ write floats.old at (fresh fit piece_limit 0) }
{
    for (j, piece) in fit.list.iter().enumerate() {
        copy(floats, at + 3 * j, &[piece.sigma, piece.coefficient, 0.0]);
    }
}

// The pieces that are finished at once: all where there are no faces.
#[tactic(auto, unfolding(crate::specs::Puts::at_first))]
fn at_first(faces: u32, count: u32) -> u32
    ensures { result ≡ at_first faces count }
{
    if faces == 0 { count } else { 0 }
}

// A place's words before its first step.
fn write_state(words: &mut [u32], at: usize, count: u32, layer: u32)
    requires { (1 < at) × (at + 4 ≤ length words.old) × (count ≤ 16) }
    ensures { words.new
        ≡ write words.old at ((1 + count) ∷ at_first (faces_of words.old) count ∷ 0 ∷ layer ∷
        []) }
{
    let finished = at_first(words[1], count);
    copy(words, at, &[1 + count, finished, 0, layer]);
}

// Fills place i with a kernel and its pieces.
#[tactic(auto, unfolding(crate::specs::Puts::put_floats, crate::specs::Puts::put_words))]
fn fill(floats: &mut [f64], words: &mut [u32], i: usize, k: Kernel, fit: Pieces, layer: u32)
    requires { (i < place_limit) × (coords_from ≤ length floats.old) × (corners_from width ≤ length words.old)
        × (fit.count ≤ 16) }
    ensures { (floats.new ≡ put_floats floats.old i k fit)
        × (words.new ≡ put_words width words.old i fit layer) }
{
    write_seven(floats, KERNEL + KERNEL_SIZE * i, k, fit.error);
    write_pieces(floats, PIECE + PIECES_SIZE * i, fit);
    write_state(words, STATE + WIDTH * i, fit.count as u32, layer);
}

// Refusal 4, 5, 6 or 16 of a put.
fn check_put(floats: &[f64], words: &[u32], place: u32, layer: u32) -> Result<(), Refusal>
    ensures { result ≡ result_and (place_check width floats.now words.now place)
        (layer_check layer) }
{
    check_place(floats, words, place)?;
    check_layer(layer)
}

// A put that is not refused. Internal: what its check finds is asked of the caller, who puts many kernels into a store
// that was looked through once.
#[tactic(auto, unfolding(crate::specs::Puts::put_step_lem), using(crate::proofs::Filled::puts))]
pub fn put_sound(floats: &mut [f64], words: &mut [u32], place: u32, k: Kernel, layer: u32) -> Placed
    requires { result_and (place_check width floats.old words.old place) (layer_check layer) ≡ passed }
    ensures { after (placed (Ok result)) floats.new words.new
        ≡ put_step_lem width floats.old words.old place k layer }
{
    let d = decompose(k, floats[0]);
    let pieces = d.pieces.count as u32;
    let steps = pieces * words[1];
    fill(floats, words, place as usize, k, d.pieces, layer);
    Placed {
        pieces,
        steps,
        fit: d.fit,
    }
}

// Puts a kernel into a place, whatever it held, in a layer: its pieces by the store's radius, none of their faces done.
#[tactic(auto, unfolding(crate::specs::Puts::put_step_lem))]
pub fn put(
    floats: &mut [f64],
    words: &mut [u32],
    place: u32,
    k: Kernel,
    layer: u32,
) -> Result<Placed, Refusal>
    ensures { after (placed result) floats.new words.new
        ≡ put_step_lem width floats.old words.old place k layer }
{
    check_put(floats, words, place, layer)?;
    Ok(put_sound(floats, words, place, k, layer))
}
