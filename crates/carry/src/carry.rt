// The carry: what old runs hold, written into new ones. The old runs are only read.
ghost use Rattle.std.specs.Prelude.{◌≡◌, ◌+◌, ◌*◌, ◌≤◌, length};
ghost use Rattle.layout.specs.After.{after};
ghost use Rattle.layout.specs.Layout.{width, place_limit, coords_from, state_from, corners_from, verts_of, faces_of};
ghost use Rattle.layout.specs.Runs.{write};
ghost use Rattle.store.specs.OpenAnswer.{opened};
ghost use Rattle.carry.specs.Carry.{old_width, carried_floats, carried_rows, carried_words, carry_step};

use crate::check::{OLD_CORNERS, OLD_WIDTH, check_carry};
use base::refusal::Refusal;
use layout::offsets::{COORDS, CORNERS, DONE, FINISHED, LAYER, PLACES, STATE, WIDTH};
use layout::runs::copy;
use store::open::Opened;

// Each place's three words, and layer 0 behind them. (By the place's number, since the old run and the new, which are
// gone over in step, have other widths.)
#[tactic(auto, using(crate::proofs::Carried::none_rowed))]
fn write_rows(words: &mut [u32], old_words: &[u32])
    requires { (corners_from width ≤ length words.old) × (corners_from old_width ≤ length old_words.now) }
    ensures { words.new ≡ write words.old (state_from width 0)
        (carried_rows old_words.now place_limit) }
{
    for i in 0..PLACES {
        let at = WIDTH * i;
        let from = OLD_WIDTH * i;
        words[STATE + at] = old_words[STATE + from];
        words[FINISHED + at] = old_words[FINISHED + from];
        words[DONE + at] = old_words[DONE + from];
        words[LAYER + at] = 0;
    }
}

// The counts, the places and the corners.
fn write_words(words: &mut [u32], old_words: &[u32])
    requires { (corners_from width + 3 * faces_of old_words.now ≤ length words.old)
        × (corners_from old_width + 3 * faces_of old_words.now ≤ length old_words.now) }
    ensures { words.new ≡ write words.old 0 (carried_words old_words.now) }
{
    words[0] = old_words[0];
    words[1] = old_words[1];
    write_rows(words, old_words);
    let end = OLD_CORNERS + 3 * (old_words[1] as usize);
    copy(words, CORNERS, &old_words[OLD_CORNERS..end]);
}

// Carries a store of the old form into runs of today's form, every kernel in layer 0, and answers its vertices and
// faces.
#[tactic(auto, unfolding(crate::specs::Carry::carry_step), using(crate::proofs::Carried::carry_passes))]
pub fn carry(
    old_floats: &[f64],
    old_words: &[u32],
    floats: &mut [f64],
    words: &mut [u32],
) -> Result<Opened, Refusal>
    ensures { after (opened result) floats.new words.new
        ≡ carry_step old_floats.now old_words.now floats.old
        words.old }
{
    check_carry(old_floats, old_words, floats, words)?;
    let verts = old_words[0];
    let end = COORDS + 3 * (verts as usize);
    copy(floats, 0, &old_floats[0..end]);
    write_words(words, old_words);
    Ok(Opened {
        verts,
        faces: old_words[1],
    })
}
