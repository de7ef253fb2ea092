// Kernels stretched with their mesh and brought to its mass. The exported `calibrate_kernels` has no `requires`.
ghost use Rattle.std.specs.Prelude.{◌≡◌, ◌≤◌, length};
ghost use Rattle.mesh.specs.Meshes.{face_count_of, triangles_of};
ghost use Rattle.base.specs.Answers.{done_as, outcome};
ghost use Rattle.weights.specs.Calibration.{farther, farther_face, reach_of, geometry_scale, target_mass_lem, calibrated_run, calibrated};

use crate::normalize::{Kernels, check_call, normalize, write_kernels};
use base::floats::{abs, greater_of};
use base::refusal::Refusal;
use mesh::triangles::{Mesh, Triangle};
use mesh::vectors::V3;
use source::volume::signed_volume;

// The greater of a distance and that of a vertex; a NaN is passed over.
#[tactic(auto, unfolding(crate::specs::Calibration::farther))]
fn farther(reach: f64, v: V3) -> f64
    ensures { result ≡ farther reach v }
{
    greater_of(reach, v.norm())
}

// The greatest of a distance and those of a face's corners.
#[tactic(auto, unfolding(crate::specs::Calibration::farther_face))]
fn farther_face(reach: f64, t: Triangle) -> f64
    ensures { result ≡ farther_face reach t }
{
    farther(farther(farther(reach, t.a), t.b), t.c)
}

// How far the faces of a mesh reach from the origin, by face number, as the definition goes.
#[tactic(auto, unfolding(crate::specs::Calibration::reach_of), using(base::specs::TimesLaws::turns))]
fn reach_of(mesh: Mesh) -> f64
    ensures { result ≡ reach_of (triangles_of mesh.entry) (face_count_of mesh.entry) }
{
    let mut reach = 0.0;
    for f in 0..mesh.face_count() {
        reach = farther_face(reach, mesh.triangle_at(f));
    }
    reach
}

// The factor by which kernels are stretched: the mesh's reach over that of the reference, 1 for a small mesh.
#[tactic(auto, unfolding(crate::specs::Calibration::geometry_scale))]
fn geometry_scale(reach: f64) -> f64
    ensures { result ≡ geometry_scale reach }
{
    if reach > 10.0 { reach / 528.5 } else { 1.0 }
}

// The mass aimed at: the mean density's, else the total where it is above 0. (density has the same test, with a
// default; this crate does not stand on density, and one `if` is as plain.)
#[tactic(auto, unfolding(crate::specs::Calibration::target_mass_lem))]
fn target_mass(mean: Option<f64>, total: f64, volume: f64) -> f64
    ensures { result ≡ target_mass_lem mean total volume }
{
    match mean {
        Some(density) => density * volume,
        None => if total > 0.0 { total } else { 0.0 },
    }
}

// Stretches a list of kernels with a mesh and brings them to its mass.
#[tactic(auto, unfolding(crate::specs::Calibration::calibrated_run))]
fn calibrate(
    mesh: Mesh,
    kernels: &[f64],
    mean: Option<f64>,
    total: f64,
    run: &mut [f64],
) -> Result<(), Refusal>
    requires { length kernels.now ≤ length run.old }
    ensures { outcome (done_as result) run.new
        ≡ calibrated_run (triangles_of mesh.entry) (face_count_of mesh.entry)
        kernels.now mean total run.old }
{
    let stretched = Kernels {
        floats: kernels,
        stretch: Some(geometry_scale(reach_of(mesh))),
    };
    let target = target_mass(mean, total, abs(signed_volume(mesh)));
    if target <= 0.0 {
        write_kernels(stretched, None, run);
        return Ok(());
    }
    normalize(mesh, stretched, target, run)
}

// Stretches a list of kernels with their mesh, brings them to its mass, and writes them to the run.
// Words past them, and the whole run at a refusal, stay as they were.
#[tactic(auto, unfolding(crate::specs::Calibration::calibrated), using(crate::proofs::Calls::passed_room))]
pub fn calibrate_kernels(
    xyz: &[f64],
    faces: &[u32],
    kernels: &[f64],
    mean: Option<f64>,
    total: f64,
    run: &mut [f64],
) -> Result<(), Refusal>
    ensures { outcome (done_as result) run.new
        ≡ calibrated xyz.now faces.now kernels.now mean total run.old }
{
    let mesh = check_call(xyz, faces, kernels, run.len())?;
    calibrate(mesh, kernels, mean, total, run)
}
