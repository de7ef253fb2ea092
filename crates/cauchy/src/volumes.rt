// Volumes, centroid, mass, density and the homogeneous report for C callers. A mesh crosses as a run of
// coordinates and a run of corners, a list of kernels as a run of six floats each. Each function states
// its answer whole: 01's number, 0 where it is not refused, and values that are 0 where it is.
ghost use Rattle.std.specs.Prelude.{◌≡◌};
ghost use Rattle.mass.specs.Calls.{point_values, kernel_volume_call, body_volume_call, volume_centroid_call, field_mass_call};
ghost use Rattle.density.specs.Densitize.{densitized};
ghost use Rattle.mass.specs.Homogeneous.{homogeneous_call};
ghost use Rattle.crossing.specs.Volumes.{value_from, point_from, report_from};

use crossing::volumes::{CauchyPoint, CauchyReport, CauchyValue};
use density::densitize::densitize;
use mass::calls::{body_volume, kernel_field_mass, kernel_volume, volume_centroid};
use mass::homogeneous::homogeneous;
use mesh::vectors::V3;

// The volume of the kernel (1 + sigma² |x - c|²)^-1 inside the mesh.
#[unsafe(no_mangle)]
pub extern "C" fn cauchy_kernel_volume(xyz: &[f64], faces: &[u32], c: V3, sigma: f64) -> CauchyValue
    ensures { result ≡ value_from (kernel_volume_call xyz.now faces.now c sigma) }
{
    CauchyValue::from(kernel_volume(xyz, faces, c, sigma))
}

// The enclosed volume, signed.
#[unsafe(no_mangle)]
pub extern "C" fn cauchy_body_volume(xyz: &[f64], faces: &[u32]) -> CauchyValue
    ensures { result ≡ value_from (body_volume_call xyz.now faces.now) }
{
    CauchyValue::from(body_volume(xyz, faces))
}

// The centroid of the enclosed volume, zeros where that is tiny or no number.
#[unsafe(no_mangle)]
pub extern "C" fn cauchy_volume_centroid(xyz: &[f64], faces: &[u32]) -> CauchyPoint
    ensures { result ≡ point_from (volume_centroid_call xyz.now faces.now) }
{
    CauchyPoint::from(volume_centroid(xyz, faces))
}

// The mass of a list of kernels inside the mesh.
#[unsafe(no_mangle)]
pub extern "C" fn cauchy_field_mass(xyz: &[f64], faces: &[u32], kernels: &[f64]) -> CauchyValue
    ensures { result ≡ value_from (field_mass_call xyz.now faces.now kernels.now) }
{
    CauchyValue::from(kernel_field_mass(xyz, faces, kernels))
}

// The density of a list of kernels at a point.
#[unsafe(no_mangle)]
pub extern "C" fn cauchy_densitize(kernels: &[f64], point: V3) -> CauchyValue
    ensures { result ≡ value_from (densitized kernels.now (point_values point)) }
{
    CauchyValue::from(densitize(kernels, [point.x, point.y, point.z]))
}

// The report of a body of this bulk density, which is taken as it is given.
#[unsafe(no_mangle)]
pub extern "C" fn cauchy_homogeneous(bulk: f64, xyz: &[f64], faces: &[u32]) -> CauchyReport
    ensures { result ≡ report_from (homogeneous_call bulk xyz.now faces.now) }
{
    CauchyReport::from(homogeneous(bulk, xyz, faces))
}
