// Clear and reweigh.
ghost use Rattle.std.specs.Prelude.{◌≡◌};
ghost use Rattle.base.specs.Answers.{done_as};
ghost use Rattle.layout.specs.Layout.{width};
ghost use Rattle.layout.specs.After.{after};
ghost use Rattle.store.specs.Calls.{clear_step, reweigh_step};

use base::refusal::Refusal;
use layout::check::check_filled;
use layout::offsets::{KERNEL, KERNEL_SIZE, PIECE, PIECES_SIZE, STATE, WEIGHT, WIDTH};
use layout::runs::fill;

// Empties a place: all its fields become zero.
#[tactic(auto, unfolding(crate::specs::Calls::clear_step), using(layout::specs::SoundLaws::filled_open))]
pub fn clear(floats: &mut [f64], words: &mut [u32], place: u32) -> Result<(), Refusal>
    ensures { after (done_as result) floats.new words.new
        ≡ clear_step width floats.old words.old place }
{
    check_filled(floats, words, place)?;
    let i = place as usize;
    fill(floats, KERNEL + KERNEL_SIZE * i, KERNEL_SIZE, 0.0);
    fill(floats, PIECE + PIECES_SIZE * i, PIECES_SIZE, 0.0);
    fill(words, STATE + WIDTH * i, WIDTH, 0);
    Ok(())
}

// Gives the kernel of a place a new weight; the work done on it stays.
#[tactic(auto, unfolding(crate::specs::Calls::reweigh_step), using(layout::specs::SoundLaws::filled_open))]
pub fn reweigh(
    floats: &mut [f64],
    words: &mut [u32],
    place: u32,
    weight: f64,
) -> Result<(), Refusal>
    ensures { after (done_as result) floats.new words.new
        ≡ reweigh_step width floats.old words.old place weight }
{
    check_filled(floats, words, place)?;
    let i = place as usize;
    floats[WEIGHT + KERNEL_SIZE * i] = weight;
    Ok(())
}
