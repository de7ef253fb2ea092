// The functions of source density.rs for C callers, each with its own order of operations. Runs and
// answers cross as in volumes; where kernels are written, words past them stay, and at a refusal all do.
ghost use Rattle.std.specs.Prelude.{◌≡◌, ◌/◌, length};
ghost use Rattle.source.specs.Density.{density_at};
ghost use Rattle.source.specs.Volumes.{volume_answer, enclosed_answer};
ghost use Rattle.weights.specs.Weights.{normalized};
ghost use Rattle.weights.specs.Calibration.{calibrated};
ghost use Rattle.crossing.specs.Volumes.{value_from};
ghost use Rattle.crossing.specs.Crossing.{lent, lent_from};
ghost use Rattle.crossing.specs.Sources.{kernels_from, optional};

use crossing::sources::{CauchyKernels, kernels_of, optional};
use crossing::volumes::CauchyValue;
use mesh::vectors::V3;
use source::density::density_at;
use source::volume::{kernel_volume, mesh_enclosed_volume};
use weights::calibrate::calibrate_kernels;
use weights::normalize::normalize_kernels;

// The density of a list of kernels at a point.
#[unsafe(no_mangle)]
pub extern "C" fn cauchy_source_density_at(kernels: &[f64], point: V3) -> CauchyValue
    ensures { result ≡ value_from (density_at kernels.now point) }
{
    CauchyValue::from(density_at(kernels, point))
}

// The volume of a kernel inside the mesh.
#[unsafe(no_mangle)]
pub extern "C" fn cauchy_source_kernel_volume(
    xyz: &[f64],
    faces: &[u32],
    c: V3,
    sigma: f64,
) -> CauchyValue
    ensures { result ≡ value_from (volume_answer xyz.now faces.now c sigma) }
{
    CauchyValue::from(kernel_volume(xyz, faces, c, sigma))
}

// The volume that the mesh encloses, without its sign.
#[unsafe(no_mangle)]
pub extern "C" fn cauchy_source_enclosed_volume(xyz: &[f64], faces: &[u32]) -> CauchyValue
    ensures { result ≡ value_from (enclosed_answer xyz.now faces.now) }
{
    CauchyValue::from(mesh_enclosed_volume(xyz, faces))
}

// Brings a list of kernels to a target mass inside the mesh, and writes them.
#[unsafe(no_mangle)]
pub extern "C" fn cauchy_source_normalize(
    xyz: &[f64],
    faces: &[u32],
    kernels: &[f64],
    target: f64,
    out: &mut [f64],
) -> CauchyKernels
    ensures { lent result out.new
        ≡ lent_from (kernels_from (length kernels.now / 6))
        (normalized xyz.now faces.now kernels.now target out.old) }
{
    let outcome = normalize_kernels(xyz, faces, kernels, target, out);
    kernels_of(outcome, kernels.len() / 6)
}

// Stretches a list of kernels with their mesh, brings them to its mass, and writes them. The mean
// density is missing where `given` is 0.
#[unsafe(no_mangle)]
pub extern "C" fn cauchy_source_calibrate(
    xyz: &[f64],
    faces: &[u32],
    kernels: &[f64],
    total: f64,
    mean: f64,
    given: u32,
    out: &mut [f64],
) -> CauchyKernels
    ensures { lent result out.new
        ≡ lent_from (kernels_from (length kernels.now / 6))
        (calibrated xyz.now faces.now kernels.now (optional given mean) total
        out.old) }
{
    let outcome = calibrate_kernels(xyz, faces, kernels, optional(given, mean), total, out);
    kernels_of(outcome, kernels.len() / 6)
}
