// Advance. It has no `requires`; a refused one changes nothing.
ghost use Rattle.std.specs.Prelude.{◌≡◌};
ghost use Rattle.layout.specs.Layout.{width};
ghost use Rattle.layout.specs.After.{after};
ghost use Rattle.layout.specs.SoundLaws.{Fine};
ghost use Rattle.advance.specs.Steps.{standing, spent_all, advance_step};
ghost use Rattle.advance.specs.AdvanceAnswer.{advanced};

use crate::work::run_places;
use base::refusal::Refusal;
use layout::check::check_store;
use layout::left::left;
use layout::offsets::{COORDS, CORNERS};
use layout::runs::word;
use mesh::triangles::Mesh;

// What an advance did: the faces integrated, and the steps left.
#[derive(Clone, Copy)]
pub struct Advanced {
    pub done: u64,
    pub left: u64,
}

// Spends up to `budget` steps on a store that has no fault, and answers how many are over.
fn spend_all(floats: &mut [f64], words: &mut [u32], budget: usize) -> usize
    requires { Fine width floats.old words.old }
    ensures { standing floats.new words.new result ≡ spent_all width floats.old words.old budget }
{
    let coords = 3 * word(words, 0);
    let corners = 3 * word(words, 1);
    let (places, xyz) = floats.split_at_mut(COORDS);
    let (states, faces) = words.split_at_mut(CORNERS);
    let mesh = Mesh {
        xyz: &xyz[..coords],
        faces: &faces[..corners],
    };
    run_places(places, states, mesh, budget)
}

// Does up to `budget` steps of the work that is left.
#[tactic(auto, unfolding(crate::specs::Steps::advance_step), using(layout::specs::SoundLaws::fine))]
pub fn advance(floats: &mut [f64], words: &mut [u32], budget: u64) -> Result<Advanced, Refusal>
    ensures { after (advanced result) floats.new words.new
        ≡ advance_step width floats.old words.old budget }
{
    check_store(floats, words)?;
    let total = left(words, words[1] as usize);
    let n = budget as usize;
    let done = n.saturating_sub(spend_all(floats, words, n));
    Ok(Advanced {
        done: done as u64,
        left: total.saturating_sub(done) as u64,
    })
}
