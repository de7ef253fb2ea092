// Whether a mesh is closed, for C callers. It crosses as a run of coordinates and a run of corners, which are only
// read.
ghost use Rattle.std.specs.Prelude.{◌≡◌, [], length};
ghost use Rattle.base.specs.Answers.{answered};
ghost use Rattle.closed.specs.Closed.{closed_check};

use closed::closed::check_closed;
use crossing::meshes::number_of;

// 0 where the mesh is closed; else 1, 2, 3 or 22.
#[unsafe(no_mangle)]
pub extern "C" fn cauchy_closed(xyz: &[f64], faces: &[u32]) -> u32
    ensures { result ≡ (answered (closed_check (length xyz.now) faces.now) []).refusal }
{
    number_of(check_closed(xyz, faces))
}
