// A mesh that is lent as two runs, and its triangles.
// Internal: a function with a `requires` is called by proved code alone.
ghost use Rattle.std.specs.Prelude.{◌≡◌, ◌+◌, ◌*◌, ◌≤◌, length};
ghost use Rattle.mesh.specs.Triangles.{normal_of, vertex, Sound};

use crate::check::check_mesh;
use crate::vectors::V3;
use base::refusal::Refusal;

// The three corners of a face, in the face's order.
#[repr(C)]
#[derive(Clone, Copy)]
pub struct Triangle {
    pub a: V3,
    pub b: V3,
    pub c: V3,
}

impl Triangle {
    // The normal, as long as twice the triangle's area.
    #[tactic(auto, unfolding(crate::specs::Triangles::normal_of))]
    pub fn normal(self) -> V3
        ensures { result ≡ normal_of self }
    {
        (self.b - self.a).cross(self.c - self.b)
    }
}

// Vertex i of a run of coordinates. It asks for those three alone: the run need not be that of a mesh.
#[tactic(auto, unfolding(crate::specs::Triangles::vertex))]
pub fn vertex(xyz: &[f64], i: usize) -> V3
    requires { 3 * i + 3 ≤ length xyz.now }
    ensures { result ≡ vertex xyz.now i }
{
    V3 {
        x: xyz[3 * i],
        y: xyz[3 * i + 1],
        z: xyz[3 * i + 2],
    }
}

// A mesh that passed the check: three coordinates a vertex, three corners a face, and each corner names a vertex. Loops
// go over its faces by number, since the definitions of volumes, masses and centroids add up by face number, as
// `triangles_of` gives each: an iterator of triangles would need the same number in its contract.
#[derive(Clone, Copy)]
pub struct Mesh<'a> {
    pub xyz: &'a [f64],
    pub faces: &'a [u32],
    pub ghost sound: { Sound (length xyz.now) faces.now },
}

impl<'a> Mesh<'a> {
    ghost use Rattle.std.specs.Prelude.{◌<◌, get_or};
    ghost use Rattle.mesh.specs.Checks.{mesh_check};
    ghost use Rattle.mesh.specs.Meshes.{face_count_of, triangles_of, MeshIf};

    // The mesh of two runs, or refusal 1, 2 or 3, the lowest that applies.
    #[tactic(auto, using(crate::specs::CheckLaws::passed_sound))]
    pub fn checked(xyz: &'a [f64], faces: &'a [u32]) -> Result<Self, Refusal>
        ensures { MeshIf (mesh_check (length xyz.now) faces.now) xyz.now faces.now result }
    {
        check_mesh(xyz, faces)?;
        Ok(Mesh { xyz, faces })
    }

    // How many faces there are.
    pub fn face_count(self) -> usize
        ensures { result ≡ face_count_of self.entry }
    {
        self.faces.len() / 3
    }

    // The vertex that corner k names.
    fn corner(self, k: usize) -> V3
        requires { k < length self.faces.now }
        ensures { result ≡ vertex self.entry.xyz.now (get_or self.entry.faces.now k 0) }
    {
        vertex(self.xyz, self.faces[k] as usize)
    }

    // The triangle of face f.
    #[tactic(auto, unfolding(crate::specs::Triangles::triangle_at))]
    pub fn triangle_at(self, f: usize) -> Triangle
        requires { f < face_count_of self }
        ensures { result ≡ triangles_of self.entry f }
    {
        let a = self.corner(3 * f);
        let b = self.corner(3 * f + 1);
        let c = self.corner(3 * f + 2);
        Triangle { a, b, c }
    }
}
