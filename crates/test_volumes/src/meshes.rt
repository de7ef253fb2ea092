// The stored meshes, each with every place, value and list.
ghost use Rattle.std.specs.Prelude.{◌<◌};

use crate::lines::{put_pair, report_floats};
use mass::calls::{body_volume, kernel_field_mass, kernel_volume, volume_centroid};
use mass::homogeneous::homogeneous;
use source::volume::mesh_enclosed_volume;
use std::io;
use test_arguments::lists::{list_length, load_list, place, value, width};
use test_arguments::meshes::{coordinate_count, corner_count, load_coordinates, load_corners};
use test_words::{put_answer, put_call};
use weights::calibrate::calibrate_kernels;
use weights::normalize::normalize_kernels;

// Writes the volume of the kernel at place p, native and source.
fn put_volumes(rt: &impl Print, m: usize, p: usize, xyz: &[f64], faces: &[u32]) -> io::Result<()>
    requires { p < 10 }
{
    put_pair(rt, "volume", m, p)?;
    put_answer(
        rt,
        kernel_volume(xyz, faces, place(p), width(p)).map(|v| [v]),
    )?;
    put_pair(rt, "source-volume", m, p)?;
    let volume = source::volume::kernel_volume(xyz, faces, place(p), width(p));
    put_answer(rt, volume.map(|v| [v]))
}

fn put_places(rt: &impl Print, m: usize, xyz: &[f64], faces: &[u32]) -> io::Result<()> {
    for p in 0..10 {
        put_volumes(rt, m, p, xyz, faces)?;
    }
    Ok(())
}

// Writes the reports of the mesh with every value as its density.
fn put_reports(rt: &impl Print, m: usize, xyz: &[f64], faces: &[u32]) -> io::Result<()> {
    for b in 0..9 {
        put_pair(rt, "homogeneous", m, b)?;
        put_answer(rt, homogeneous(value(b), xyz, faces).map(report_floats))?;
    }
    Ok(())
}

// The mean density of a calibration: missing where the numbers of mesh and list are both odd or both even.
fn mean_of(m: usize, k: usize) -> Option<f64>
    requires { (m < 18) × (k < 12) }
{
    if (m + k) % 2 == 1 {
        Some(value((m + 3 * k) % 9))
    } else {
        None
    }
}

// Writes the mass of a list, then the list normalized and calibrated.
fn put_weights(
    rt: &impl Print,
    m: usize,
    k: usize,
    xyz: &[f64],
    faces: &[u32],
    list: &[f64],
) -> io::Result<()>
    requires { (m < 18) × (k < 12) }
{
    put_pair(rt, "mass", m, k)?;
    put_answer(rt, kernel_field_mass(xyz, faces, list).map(|m| [m]))?;
    let mut run = [7.0; 12];
    put_pair(rt, "source-normalize", m, k)?;
    let normalized = normalize_kernels(xyz, faces, list, value((m + k) % 9), &mut run);
    put_answer(rt, normalized.map(|()| run))?;
    let mut other = [7.0; 12];
    put_pair(rt, "source-calibrate", m, k)?;
    let total = value((m + 2 * k) % 9);
    let calibrated = calibrate_kernels(xyz, faces, list, mean_of(m, k), total, &mut other);
    put_answer(rt, calibrated.map(|()| other))
}

fn put_list(rt: &impl Print, m: usize, k: usize, xyz: &[f64], faces: &[u32]) -> io::Result<()>
    requires fact_1 { m < 18 }
    requires fact_2 { k < 12 }
{
    let list = load_list(k);
    let n = list_length(k);
    put_weights(rt, m, k, xyz, faces, &list[..n])
}

fn put_lists(rt: &impl Print, m: usize, xyz: &[f64], faces: &[u32]) -> io::Result<()>
    requires { m < 18 }
{
    for k in 0..12 {
        put_list(rt, m, k, xyz, faces)?;
    }
    Ok(())
}

// Writes all lines of a mesh.
fn put_answers(rt: &impl Print, m: usize, xyz: &[f64], faces: &[u32]) -> io::Result<()>
    requires { m < 18 }
{
    put_call(rt, "body", m)?;
    put_answer(rt, body_volume(xyz, faces).map(|v| [v]))?;
    put_call(rt, "centroid", m)?;
    put_answer(rt, volume_centroid(xyz, faces).map(|at| [at.x, at.y, at.z]))?;
    put_call(rt, "source-enclosed", m)?;
    put_answer(rt, mesh_enclosed_volume(xyz, faces).map(|v| [v]))?;
    put_places(rt, m, xyz, faces)?;
    put_reports(rt, m, xyz, faces)?;
    put_lists(rt, m, xyz, faces)
}

fn put_mesh(rt: &impl Print, m: usize) -> io::Result<()>
    requires { m < 18 }
{
    let xyz = load_coordinates(m);
    let faces = load_corners(m);
    let coordinates = coordinate_count(m);
    let corners = corner_count(m);
    put_answers(rt, m, &xyz[..coordinates], &faces[..corners])
}

// The lines of all meshes.
pub fn put_meshes(rt: &impl Print) -> io::Result<()> {
    for m in 0..18 {
        put_mesh(rt, m)?;
    }
    Ok(())
}
