// The mass of a list of kernels inside a mesh.
ghost use Rattle.std.specs.Prelude.{◌≡◌};
ghost use Rattle.mesh.specs.Meshes.{face_count_of, triangles_of};
ghost use Rattle.mass.specs.Total.{field_mass};

use kernel::field::centre_of;
use kernel::kernel::kernel_at;
use mesh::triangles::Mesh;
use volume::faces::volume_of;

// Weight times volume of each kernel, added up, by the kernels' numbers, as `field_mass` goes. (Not one function with
// the sum of weights: that takes source's volume, which is another float.)
#[tactic(auto, unfolding(crate::specs::Total::field_mass), using(base::specs::TimesLaws::turns))]
pub fn field_mass_of(mesh: Mesh, kernels: &[f64]) -> f64
    ensures { result ≡ field_mass (triangles_of mesh.entry) (face_count_of mesh.entry) kernels.now }
{
    let mut total = 0.0;
    for i in 0..kernels.len() / 6 {
        let k = kernel_at(kernels, i);
        total += k.w * volume_of(mesh, centre_of(k), k.sigma);
    }
    total
}
