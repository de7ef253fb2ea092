// The report of a body of one density, on a mesh that is given beside it (native density.rs). The call
// has no `requires`.
ghost use Rattle.std.specs.Prelude.{◌≡◌};
ghost use Rattle.mass.specs.Homogeneous.{reported_as, homogeneous_call};

use base::refusal::Refusal;
use density::report::{MassReport, homogeneous_of};
use mesh::triangles::Mesh;
use volume::faces::body_volume_of;

// The report of a body of this bulk density, which is taken as it is given.
#[tactic(auto, unfolding(crate::specs::Homogeneous::homogeneous_call))]
pub fn homogeneous(bulk: f64, xyz: &[f64], faces: &[u32]) -> Result<MassReport, Refusal>
    ensures { reported_as result ≡ homogeneous_call bulk xyz.now faces.now }
{
    let mesh = Mesh::checked(xyz, faces)?;
    Ok(homogeneous_of(bulk, body_volume_of(mesh)))
}
