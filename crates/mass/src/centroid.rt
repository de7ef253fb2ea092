// The centroid of a body.
ghost use Rattle.std.specs.Prelude.{◌≡◌};
ghost use Rattle.mesh.specs.Meshes.{face_count_of, triangles_of};
ghost use Rattle.mass.specs.Centroid.{moment, face_moment, moment_to, centred, volume_centroid};

use base::floats::abs;
use mesh::dunavant::{Node, node_at, point_of};
use mesh::triangles::{Mesh, Triangle};
use mesh::vectors::V3;
use volume::faces::{ORIGIN, body_volume_of};

// The sums after the point at a node, for the normal n.
#[tactic(auto, unfolding(crate::specs::Centroid::moment))]
fn moment(acc: V3, t: Triangle, n: V3, k: Node) -> V3
    ensures { result ≡ moment t n k acc }
{
    let y = point_of(t, k);
    let m = k.w * 0.25 * y.dot(y);
    V3 {
        x: acc.x + m * n.x,
        y: acc.y + m * n.y,
        z: acc.z + m * n.z,
    }
}

// The sums after one more face.
#[tactic(auto, unfolding(crate::specs::Centroid::face_moment), using(base::specs::TimesLaws::turns))]
fn face_moment(acc: V3, t: Triangle) -> V3
    ensures { result ≡ face_moment t acc }
{
    let n = t.normal();
    let mut acc = acc;
    for i in 0..7usize {
        acc = moment(acc, t, n, node_at(i));
    }
    acc
}

// The sums over all faces, by face number, as `moment_to` goes.
#[tactic(auto, unfolding(crate::specs::Centroid::moment_to), using(base::specs::TimesLaws::turns))]
fn moment_of(mesh: Mesh) -> V3
    ensures { result ≡ moment_to (triangles_of mesh.entry) (face_count_of mesh.entry) }
{
    let mut acc = ORIGIN;
    for f in 0..mesh.face_count() {
        acc = face_moment(acc, mesh.triangle_at(f));
    }
    acc
}

// The sums over the volume, zeros unless that is above 1e-30 in absolute value.
#[tactic(auto, unfolding(crate::specs::Centroid::centred))]
fn centred(a: V3, v: f64) -> V3
    ensures { result ≡ centred a v }
{
    if abs(v) > 1e-30 {
        return V3 {
            x: a.x / v,
            y: a.y / v,
            z: a.z / v,
        };
    }
    ORIGIN
}

// The centroid of the enclosed volume.
#[tactic(auto, unfolding(crate::specs::Centroid::volume_centroid))]
pub fn centroid_of(mesh: Mesh) -> V3
    ensures { result ≡ volume_centroid (triangles_of mesh.entry) (face_count_of mesh.entry) }
{
    centred(moment_of(mesh), body_volume_of(mesh))
}
