// Open: a mesh and a radius copied into lent runs, all places empty. What the runs held before does not matter.
ghost use Rattle.std.specs.Prelude.{◌≡◌, ◌+◌, ◌≤◌, ◌<◌, length};
ghost use Rattle.layout.specs.Runs.{write};
ghost use Rattle.layout.specs.Layout.{width, coords_from, corners_from};
ghost use Rattle.layout.specs.After.{after};
ghost use Rattle.store.specs.Calls.{open_check, open_floats, open_words, open_step};
ghost use Rattle.store.specs.OpenAnswer.{opened};

use base::refusal::Refusal;
use layout::offsets::{COORDS, CORNERS};
use layout::runs::{copy, fill};
use mesh::check::check_mesh;

// The mesh of a store that is opened: its vertices and faces.
#[derive(Clone, Copy)]
pub struct Opened {
    pub verts: u32,
    pub faces: u32,
}

// Refusals 1 to 4 of an opening into runs of so many floats and words.
#[tactic(auto, unfolding(crate::specs::Calls::open_check))]
fn check_open(xyz: &[f64], corners: &[u32], floats: usize, words: usize) -> Result<(), Refusal>
    ensures { result ≡ open_check width (length xyz.now) corners.now floats words }
{
    check_mesh(xyz, corners)?;
    if floats < COORDS + xyz.len() || words < CORNERS + corners.len() {
        return Err(Refusal::ShortStore);
    }
    Ok(())
}

// The radius, zeros and the coordinates.
fn write_floats(floats: &mut [f64], radius: f64, xyz: &[f64])
    requires { coords_from + length xyz.now ≤ length floats.old }
    ensures { floats.new ≡ write floats.old 0 (open_floats radius xyz.now) }
{
    floats[0] = radius;
    fill(floats, 1, COORDS - 1, 0.0);
    copy(floats, COORDS, xyz);
}

// The counts, zeros and the corners.
fn write_words(words: &mut [u32], verts: u32, faces: u32, corners: &[u32])
    requires { corners_from width + length corners.now ≤ length words.old }
    ensures { words.new ≡ write words.old 0
        (open_words width verts faces corners.now) }
{
    copy(words, 0, &[verts, faces]);
    fill(words, 2, CORNERS - 2, 0);
    copy(words, CORNERS, corners);
}

// Makes two runs a store of a mesh and a radius, with every place empty.
#[tactic(auto, unfolding(crate::specs::Calls::open_step), using(crate::specs::OpenLaws::open_passes))]
pub fn open(
    floats: &mut [f64],
    words: &mut [u32],
    radius: f64,
    xyz: &[f64],
    corners: &[u32],
) -> Result<Opened, Refusal>
    ensures { after (opened result) floats.new words.new
        ≡ open_step width floats.old words.old radius xyz.now corners.now }
{
    check_open(xyz, corners, floats.len(), words.len())?;
    let verts = (xyz.len() / 3) as u32;
    let faces = (corners.len() / 3) as u32;
    write_floats(floats, radius, xyz);
    write_words(words, verts, faces, corners);
    Ok(Opened { verts, faces })
}
