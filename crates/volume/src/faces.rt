// The volume of a kernel inside a mesh: Dunavant's seven points on each face, in one running sum.
// Internal: a function with a `requires` is called by proved code alone.
ghost use Rattle.std.specs.Prelude.{◌≡◌, ◌≤◌};
ghost use Rattle.base.specs.ZeroLaws.{minus_zero};
ghost use Rattle.mesh.specs.Meshes.{face_count_of, triangles_of};
ghost use Rattle.volume.specs.Volume.{flux, face_sum, volume_from, kernel_volume, body_volume};

use crate::block::volume_blocks;
use base::floats::{abs, is_negative};
use mesh::dunavant::{Node, node_at, point_of};
use mesh::triangles::{Mesh, Triangle};
use mesh::vectors::V3;
use radial::radial_g;

// Zeros.
pub const ORIGIN: V3 = V3 {
    x: 0.0,
    y: 0.0,
    z: 0.0,
};

// What the point at a node adds, for the normal n.
#[tactic(auto, unfolding(crate::specs::Volume::flux))]
fn flux(t: Triangle, n: V3, c: V3, sigma: f64, k: Node) -> f64
    ensures { result ≡ flux t n c sigma k }
{
    let d = point_of(t, k) - c;
    k.w * radial_g(sigma * d.norm()) * d.dot(n) * 0.5
}

// The sum after one more face: seven additions.
#[tactic(auto, unfolding(crate::specs::Volume::face_sum), using(base::specs::TimesLaws::turns))]
pub fn face_sum(sum: f64, t: Triangle, c: V3, sigma: f64) -> f64
    ensures { result ≡ face_sum t c sigma sum }
{
    let n = t.normal();
    let mut sum = sum;
    for i in 0..7usize {
        sum += flux(t, n, c, sigma, node_at(i));
    }
    sum
}

// The sum after the faces from `from` up to `to`, face by face.
#[tactic(auto, using(crate::specs::Laws::from_none, crate::specs::Laws::from_next))]
fn volume_faces(sum: f64, mesh: Mesh, c: V3, sigma: f64, from: usize, to: usize) -> f64
    requires { (from ≤ to) × (to ≤ face_count_of mesh) }
    ensures { result ≡ volume_from (triangles_of mesh.entry) c sigma from to sum }
{
    let mut sum = sum;
    for f in from..to {
        sum = face_sum(sum, mesh.triangle_at(f), c, sigma);
    }
    sum
}

// Whether a sum is -0: no sum that starts at +0 is, but a store's run, which anyone may have written, can hold one.
fn is_minus_zero(sum: f64) -> bool
    ensures { result ≡ minus_zero sum }
{
    if sum == 0.0 { is_negative(sum) } else { false }
}

// The sum after the faces from `from` up to `to`: whole blocks, then the faces that are left. They go by the absolute
// value of sigma: a factor of -t is that of t but for the sign of a zero, which a sum that is not -0 does not see.
pub fn volume_from(sum: f64, mesh: Mesh, c: V3, sigma: f64, from: usize, to: usize) -> f64
    requires { (from ≤ to) × (to ≤ face_count_of mesh) }
    ensures { result ≡ volume_from (triangles_of mesh.entry) c sigma from to sum }
{
    if is_minus_zero(sum) {
        return volume_faces(sum, mesh, c, sigma, from, to);
    }
    let size = abs(sigma);
    let n = (to - from) / 4;
    let blocks = volume_blocks(sum, mesh, c, size, from, n);
    volume_faces(blocks, mesh, c, size, from + 4 * n, to)
}

// The volume over all faces.
#[tactic(auto, using(crate::specs::Laws::from_start))]
pub fn volume_of(mesh: Mesh, c: V3, sigma: f64) -> f64
    ensures { result ≡ kernel_volume (triangles_of mesh.entry) (face_count_of mesh.entry) c sigma }
{
    volume_from(0.0, mesh, c, sigma, 0, mesh.face_count())
}

// The enclosed volume, signed.
pub fn body_volume_of(mesh: Mesh) -> f64
    ensures { result ≡ body_volume (triangles_of mesh.entry) (face_count_of mesh.entry) }
{
    volume_of(mesh, ORIGIN, 0.0)
}
