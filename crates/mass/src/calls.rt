// The calls on a mesh that is given beside them: volumes, centroid, mass. None has a `requires`;
// a mesh or a list that will not do is refused by its number.
ghost use Rattle.std.specs.Prelude.{◌≡◌};
ghost use Rattle.base.specs.Answers.{measured_as};
ghost use Rattle.mass.specs.Calls.{located_as, kernel_volume_call, body_volume_call, volume_centroid_call, field_mass_call};

use crate::centroid::centroid_of;
use crate::total::field_mass_of;
use base::refusal::Refusal;
use kernel::field::check_field;
use mesh::triangles::Mesh;
use mesh::vectors::V3;
use volume::faces::{body_volume_of, volume_of};

// The volume of (1 + sigma² |x - c|²)^-1 over the body. (Not one function with source's: C calls both, and each has a
// promise of its own, `kernel_volume_call` here.)
#[tactic(auto, unfolding(crate::specs::Calls::kernel_volume_call))]
pub fn kernel_volume(xyz: &[f64], faces: &[u32], c: V3, sigma: f64) -> Result<f64, Refusal>
    ensures { measured_as result ≡ kernel_volume_call xyz.now faces.now c sigma }
{
    let mesh = Mesh::checked(xyz, faces)?;
    Ok(volume_of(mesh, c, sigma))
}

// The enclosed volume, signed.
#[tactic(auto, unfolding(crate::specs::Calls::body_volume_call))]
pub fn body_volume(xyz: &[f64], faces: &[u32]) -> Result<f64, Refusal>
    ensures { measured_as result ≡ body_volume_call xyz.now faces.now }
{
    let mesh = Mesh::checked(xyz, faces)?;
    Ok(body_volume_of(mesh))
}

// The centroid of the enclosed volume, zeros where that is tiny or no number.
#[tactic(auto, unfolding(crate::specs::Calls::volume_centroid_call))]
pub fn volume_centroid(xyz: &[f64], faces: &[u32]) -> Result<V3, Refusal>
    ensures { located_as result ≡ volume_centroid_call xyz.now faces.now }
{
    let mesh = Mesh::checked(xyz, faces)?;
    Ok(centroid_of(mesh))
}

// The mass of a list of kernels over the body: weight times volume, added up.
#[tactic(auto, unfolding(crate::specs::Calls::field_mass_call))]
pub fn kernel_field_mass(xyz: &[f64], faces: &[u32], kernels: &[f64]) -> Result<f64, Refusal>
    ensures { measured_as result ≡ field_mass_call xyz.now faces.now kernels.now }
{
    let mesh = check_field(xyz, faces, kernels)?;
    Ok(field_mass_of(mesh, kernels))
}
