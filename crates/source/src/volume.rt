// The volume of a kernel inside a mesh, and of the mesh. The exported `kernel_volume` and
// `mesh_enclosed_volume` take any runs.
ghost use Rattle.std.specs.Prelude.{◌≡◌};
ghost use Rattle.base.specs.Answers.{measured_as};
ghost use Rattle.mesh.specs.Meshes.{face_count_of, triangles_of};
ghost use Rattle.source.specs.Volumes.{radial_g, flux, face_sum, kernel_volume, centroid_of, pyramid, signed_volume, volume_answer, enclosed_answer};

use base::floats::abs;
use base::refusal::Refusal;
use mesh::dunavant::{Node, node_at, point_of};
use mesh::triangles::{Mesh, Triangle};
use mesh::vectors::V3;
use powers::arc::arc;
use radial::radial_g_series;

// (t - atan t) / t³ from 0.1 on, else the series; so a NaN takes the series here.
#[tactic(auto, unfolding(crate::specs::Volumes::radial_g))]
fn radial_g(t: f64) -> f64
    ensures { result ≡ radial_g t }
{
    if abs(t) >= 0.1 {
        return (t - arc(t)) / (t * t * t);
    }
    radial_g_series(t)
}

// What the point at a node adds, for the normal n. (Not one function with volume's: the factors come in another order,
// which the definition of each has.)
#[tactic(auto, unfolding(crate::specs::Volumes::flux))]
fn flux(t: Triangle, n: V3, c: V3, sigma: f64, k: Node) -> f64
    ensures { result ≡ flux t n c sigma k }
{
    let d = point_of(t, k) - c;
    0.5 * k.w * radial_g(sigma * d.norm()) * d.dot(n)
}

// The sum after one more face: seven additions. (volume's has the same text over another `flux`; with the `flux` as an
// argument its contract would have to say of each node that the closure may be called and what it then gives.)
#[tactic(auto, unfolding(crate::specs::Volumes::face_sum), using(base::specs::TimesLaws::turns))]
fn face_sum(sum: f64, t: Triangle, c: V3, sigma: f64) -> f64
    ensures { result ≡ face_sum t c sigma sum }
{
    let n = t.normal();
    let mut sum = sum;
    for i in 0..7usize {
        sum += flux(t, n, c, sigma, node_at(i));
    }
    sum
}

// The volume of a kernel over all faces of a mesh, by face number, as its definition goes.
#[tactic(auto, unfolding(crate::specs::Volumes::kernel_volume), using(base::specs::TimesLaws::turns))]
pub fn volume_of(mesh: Mesh, c: V3, sigma: f64) -> f64
    ensures { result ≡ kernel_volume (triangles_of mesh.entry) (face_count_of mesh.entry) c sigma }
{
    let mut total = 0.0;
    for f in 0..mesh.face_count() {
        total = face_sum(total, mesh.triangle_at(f), c, sigma);
    }
    total
}

// The volume of a kernel inside a mesh, or refusal 1, 2 or 3 of the mesh. (Not one function with mass's: C calls both,
// and each has a promise of its own, `volume_answer` here.)
#[tactic(auto, unfolding(crate::specs::Volumes::volume_answer))]
pub fn kernel_volume(xyz: &[f64], faces: &[u32], c: V3, sigma: f64) -> Result<f64, Refusal>
    ensures { measured_as result ≡ volume_answer xyz.now faces.now c sigma }
{
    let mesh = Mesh::checked(xyz, faces)?;
    Ok(volume_of(mesh, c, sigma))
}

// The centroid of a triangle.
#[tactic(auto, unfolding(crate::specs::Volumes::centroid_of))]
fn centroid_of(t: Triangle) -> V3
    ensures { result ≡ centroid_of t }
{
    V3 {
        x: (t.a.x + t.b.x + t.c.x) / 3.0,
        y: (t.a.y + t.b.y + t.c.y) / 3.0,
        z: (t.a.z + t.b.z + t.c.z) / 3.0,
    }
}

// The signed volume between a triangle and the origin.
#[tactic(auto, unfolding(crate::specs::Volumes::pyramid))]
fn pyramid(t: Triangle) -> f64
    ensures { result ≡ pyramid t }
{
    centroid_of(t).dot(t.normal()) / 6.0
}

// The signed volume of a mesh, by face number, as its definition goes.
#[tactic(auto, unfolding(crate::specs::Volumes::signed_volume), using(base::specs::TimesLaws::turns))]
pub fn signed_volume(mesh: Mesh) -> f64
    ensures { result ≡ signed_volume (triangles_of mesh.entry) (face_count_of mesh.entry) }
{
    let mut total = 0.0;
    for f in 0..mesh.face_count() {
        total += pyramid(mesh.triangle_at(f));
    }
    total
}

// The volume that a mesh encloses, or refusal 1, 2 or 3 of the mesh.
#[tactic(auto, unfolding(crate::specs::Volumes::enclosed_answer))]
pub fn mesh_enclosed_volume(xyz: &[f64], faces: &[u32]) -> Result<f64, Refusal>
    ensures { measured_as result ≡ enclosed_answer xyz.now faces.now }
{
    let mesh = Mesh::checked(xyz, faces)?;
    Ok(abs(signed_volume(mesh)))
}
