// The density of kernels at a point, always by the power. The exported `density_at` has no `requires`.
ghost use Rattle.std.specs.Prelude.{◌≡◌, ◌/◌, length};
ghost use Rattle.kernel.specs.Kernels.{kernel_at};
ghost use Rattle.base.specs.Answers.{measured_as};
ghost use Rattle.source.specs.Density.{share_of, density_of, density_at};

use base::refusal::Refusal;
use kernel::field::centre_of;
use kernel::kernel::{Kernel, check_list, kernel_at};
use mesh::vectors::V3;
use powers::power::power;

// What one kernel adds to the density at a point. (The base is not density's `base_at`: each stands in a definition of
// its own, here over vectors, and the two specifications are kept apart.)
#[tactic(auto, unfolding(crate::specs::Density::share_of))]
fn share_of(k: Kernel, point: V3) -> f64
    ensures { result ≡ share_of k point }
{
    let d = point - centre_of(k);
    k.w / power(1.0 + k.sigma * k.sigma * d.dot(d), k.alpha)
}

// The density of a list of kernels at a point. By the kernels' numbers, as `density_of` and `kernel_at` go: over
// `chunks_exact(6)` each chunk would have to be shown to be the kernel of its number.
#[tactic(auto, unfolding(crate::specs::Density::density_of), using(base::specs::TimesLaws::turns))]
fn density_sum(kernels: &[f64], point: V3) -> f64
    ensures { result ≡ density_of (kernel_at kernels.now) (length kernels.now / 6) point }
{
    let mut density = 0.0;
    for i in 0..kernels.len() / 6 {
        density += share_of(kernel_at(kernels, i), point);
    }
    density
}

// The density of a list of kernels at a point, or refusal 9 of the list.
#[tactic(auto, unfolding(crate::specs::Density::density_at))]
pub fn density_at(kernels: &[f64], point: V3) -> Result<f64, Refusal>
    ensures { measured_as result ≡ density_at kernels.now point }
{
    check_list(kernels)?;
    Ok(density_sum(kernels, point))
}
