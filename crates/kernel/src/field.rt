// A field is a mesh with a list of kernels. What native's and source's volumes and masses share of it: Dunavant's rule,
// a kernel's centre as a point, and the refusals. No function here has a `requires`.
ghost use Rattle.std.specs.Prelude.{◌≡◌, length};
ghost use Rattle.mesh.specs.Meshes.{MeshIf};
ghost use Rattle.kernel.specs.Field.{centre_of, field_check};

use crate::kernel::{Kernel, check_list};
use base::refusal::Refusal;
use mesh::triangles::Mesh;
use mesh::vectors::V3;

// A kernel's centre. No `From` of three floats: `centre_of` is a definition of Field, by which volumes and masses are
// stated, and it takes the kernel.
#[tactic(auto, unfolding(crate::specs::Field::centre_of))]
pub fn centre_of(k: Kernel) -> V3
    ensures { result ≡ centre_of k }
{
    V3 {
        x: k.c[0],
        y: k.c[1],
        z: k.c[2],
    }
}

// The mesh of a field, or refusal 1, 2 or 3 of its runs, then 9 of its list of kernels.
#[tactic(auto, unfolding(crate::specs::Field::field_check))]
pub fn check_field<'a>(
    xyz: &'a [f64],
    faces: &'a [u32],
    kernels: &[f64],
) -> Result<Mesh<'a>, Refusal>
    ensures { MeshIf (field_check (length xyz.now) faces.now kernels.now) xyz.now faces.now result }
{
    let mesh = Mesh::checked(xyz, faces)?;
    check_list(kernels)?;
    Ok(mesh)
}
