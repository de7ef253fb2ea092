// The call.
ghost use Rattle.std.specs.Prelude.{◌≡◌};
ghost use Rattle.base.specs.Answers.{counted_as};
ghost use Rattle.layout.specs.Layout.{width};
ghost use Rattle.layout.specs.After.{after};
ghost use Rattle.squeeze.specs.Squeeze.{squeeze_step};

use crate::moves::squeeze_mesh;
use base::refusal::Refusal;
use layout::check::check_store;
use layout::offsets::{COORDS, CORNERS};

// Squeezes the vertices that no face uses out of a store: the others keep their order, the corners are renumbered, the
// freed floats become zero. Answers how many coordinates were freed.
#[tactic(auto, unfolding(crate::specs::Squeeze::squeeze_step), using(crate::proofs::Called::all))]
pub fn squeeze(floats: &mut [f64], words: &mut [u32]) -> Result<u32, Refusal>
    ensures { after (counted_as result) floats.new words.new
        ≡ squeeze_step width floats.old words.old }
{
    check_store(floats, words)?;
    let verts = words[0] as usize;
    let faces = words[1] as usize;
    let end_f = COORDS + 3 * verts;
    let end_w = CORNERS + 3 * faces;
    let kept = squeeze_mesh(
        &mut floats[COORDS..end_f],
        &mut words[CORNERS..end_w],
        verts,
    );
    words[0] = kept as u32;
    Ok((3 * (verts - kept)) as u32)
}
