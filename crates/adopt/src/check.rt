// Refusals 4 and 5 of either store, 6 of either place, 7 of the other's place.
ghost use Rattle.std.specs.Prelude.{◌≡◌};
ghost use Rattle.layout.specs.Layout.{width};
ghost use Rattle.adopt.specs.Adopt.{adopt_check};

use base::refusal::Refusal;
use layout::check::{long_enough, words_sound};
use layout::offsets::{PLACES, STATE, WIDTH};

// Whether a place of the other store can come into a place of this one, by the lowest refusal that applies to either.
#[tactic(auto, unfolding(crate::specs::Adopt::adopt_check), using(layout::specs::SoundLaws::long_words))]
pub fn check_adopt(
    floats: &[f64],
    words: &[u32],
    place: u32,
    other_floats: &[f64],
    other_words: &[u32],
    other_place: u32,
) -> Result<(), Refusal>
    ensures { result ≡ adopt_check width floats.now words.now place
        other_floats.now other_words.now other_place }
{
    if !long_enough(floats, words, WIDTH) || !long_enough(other_floats, other_words, WIDTH) {
        return Err(Refusal::ShortStore);
    }
    if !words_sound(words, WIDTH) || !words_sound(other_words, WIDTH) {
        return Err(Refusal::Unsound);
    }
    if place as usize >= PLACES || other_place as usize >= PLACES {
        return Err(Refusal::NoPlace);
    }
    if other_words[STATE + WIDTH * (other_place as usize)] == 0 {
        return Err(Refusal::Vacant);
    }
    Ok(())
}
