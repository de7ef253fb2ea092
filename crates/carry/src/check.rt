// Refusals 4 and 5 of old runs, and 4 of new runs.
ghost use Rattle.std.specs.Prelude.{◌≡◌};
ghost use Rattle.carry.specs.Carry.{carry_check};

use base::refusal::Refusal;
use layout::check::{long_enough, room, words_sound};
use layout::offsets::CORNERS;

// The words to a place of the old form, and where its corners begin.
pub const OLD_WIDTH: usize = 3;

pub const OLD_CORNERS: usize = 98;

// Whether the old runs can be carried into the new ones: both must be long enough for the counts that the old words
// have, whatever these are, and then the old words must be sound.
#[tactic(auto, unfolding(crate::specs::Carry::carry_check), using(layout::specs::SoundLaws::long_words))]
pub fn check_carry(
    old_floats: &[f64],
    old_words: &[u32],
    floats: &[f64],
    words: &[u32],
) -> Result<(), Refusal>
    ensures { result ≡ carry_check old_floats.now old_words.now floats.now
        words.now }
{
    if !long_enough(old_floats, old_words, OLD_WIDTH) {
        return Err(Refusal::ShortStore);
    }
    if !room(
        floats.len(),
        words.len(),
        CORNERS,
        old_words[0],
        old_words[1],
    ) {
        return Err(Refusal::ShortStore);
    }
    if !words_sound(old_words, OLD_WIDTH) {
        return Err(Refusal::Unsound);
    }
    Ok(())
}
