// The check of a mesh that is given to a call. No function here has a `requires`.
ghost use Rattle.std.specs.Prelude.{◌≡◌, length};
ghost use Rattle.mesh.specs.Checks.{all_below, mesh_check};

use base::refusal::Refusal;

// The limits of 01, "The store": V vertices and F faces, as `vertex_limit` and `face_limit` say.
pub const VERTEX_LIMIT: u32 = 1_048_576;

pub const FACE_LIMIT: u32 = 2_097_152;

// Whether each word is below v. It reads all of them, so that it runs at the memory's speed.
#[tactic(auto, using(crate::specs::CheckLaws::below_more), unfolding(crate::specs::Checks::all_below))]
pub fn all_below(words: &[u32], v: u32) -> bool
    ensures { result ≡ all_below v words.now }
{
    let mut all = true;
    for word in words {
        all = all & (*word < v);
    }
    all
}

// Refusals 1, 2 and 3 of a mesh, the lowest that applies.
#[tactic(auto, unfolding(crate::specs::Checks::mesh_check), using(crate::specs::CheckLaws::in_limit))]
pub fn check_mesh(xyz: &[f64], faces: &[u32]) -> Result<(), Refusal>
    ensures { result ≡ mesh_check (length xyz.now) faces.now }
{
    let ragged = (xyz.len() % 3 != 0) | (faces.len() % 3 != 0);
    if ragged {
        return Err(Refusal::Ragged);
    }
    let v = xyz.len() / 3;
    let oversize = (v > VERTEX_LIMIT as usize) | (faces.len() / 3 > FACE_LIMIT as usize);
    if oversize {
        return Err(Refusal::Oversize);
    }
    if all_below(faces, v as u32) {
        return Ok(());
    }
    Err(Refusal::LooseCorner)
}
