// The check whether a mesh is closed. The exported function has no `requires`.
ghost use Rattle.std.specs.Prelude.{◌≡◌, ◌≤◌, length};
ghost use Rattle.closed.specs.Closed.{distinct_corners, passes, closed_check};
ghost use Rattle.mesh.specs.Corners.{Below};

use crate::sweep::sweep;
use base::refusal::Refusal;
use mesh::check::check_mesh;
use mesh::corners::Corners;

// Whether no face names a corner twice. By face number, since its invariant drops the corners of the faces passed by.
fn distinct(corners: Corners) -> bool
    ensures { result ≡ distinct_corners corners.entry.list.now }
{
    let mut all = true;
    for face in 0..corners.face_count() {
        let a = corners.list[3 * face];
        let b = corners.list[3 * face + 1];
        let c = corners.list[3 * face + 2];
        all = all & (a != b) & (b != c) & (c != a);
    }
    all
}

// Whether the faces of a mesh of v vertices pass.
fn passes(corners: Corners, v: u64) -> bool
    requires { (v ≤ 1048576) × Below v corners.list.now }
    ensures { result ≡ passes corners.entry.list.now }
{
    if !distinct(corners) {
        return false;
    }
    sweep(corners, v * 1_048_576)
}

// Refusals 1, 2 and 3 of a mesh, the lowest that applies; else 22 where it is not closed.
#[tactic(auto, unfolding(crate::specs::Closed::closed_check))]
pub fn check_closed(xyz: &[f64], faces: &[u32]) -> Result<(), Refusal>
    ensures { result ≡ closed_check (length xyz.now) faces.now }
{
    check_mesh(xyz, faces)?;
    let corners = Corners { list: faces };
    if passes(corners, (xyz.len() / 3) as u64) {
        return Ok(());
    }
    Err(Refusal::Unclosed)
}
