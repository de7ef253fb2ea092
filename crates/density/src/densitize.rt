// What kernels make of the density at a point. The exported `densitize` has no `requires`.
ghost use Rattle.std.specs.Prelude.{◌≡◌, ◌/◌, length};
ghost use Rattle.base.specs.Answers.{measured_as};
ghost use Rattle.kernel.specs.Kernels.{kernel_at};
ghost use Rattle.density.specs.Densitize.{base_at, density_of, densitize_of, densitized};

use base::floats::abs;
use base::refusal::Refusal;
use kernel::kernel::{Kernel, check_list, kernel_at};
use powers::power::power;

// What a kernel's exponent is put on: 1 + sigma² * |x - c|². (The crate source's `share_of` makes it too. Not one
// function of both: the Rust has the density twice, in `native` and in `source`, so two definitions stand apart.)
#[tactic(auto, unfolding(crate::specs::Densitize::base_at))]
fn base_at(k: Kernel, x: [f64; 3]) -> f64
    ensures { result ≡ base_at k x }
{
    let dx = x[0] - k.c[0];
    let dy = x[1] - k.c[1];
    let dz = x[2] - k.c[2];
    1.0 + k.sigma * k.sigma * (dx * dx + dy * dy + dz * dz)
}

// What one kernel adds to the density at x. The test of an exponent of 1 is strict here, and is not where a kernel's
// pieces are made: each is as its definition has it, so no method of `Kernel` is both.
#[tactic(auto, unfolding(crate::specs::Densitize::density_of))]
pub fn density_of(k: Kernel, x: [f64; 3]) -> f64
    ensures { result ≡ density_of k x }
{
    let b = base_at(k, x);
    if abs(k.alpha - 1.0) < 1e-9 {
        k.w / b
    } else {
        k.w * power(b, -k.alpha)
    }
}

// The density of all kernels of a list at x. (By a kernel's number: of each six floats cut out of the list the kernel
// would be `kernel_at(six, 0)`, which is no plainer.)
#[tactic(auto, unfolding(crate::specs::Densitize::densitize_of), using(base::specs::LoopLaws::from_zero, base::specs::LoopLaws::goes, base::specs::LoopLaws::ended))]
fn density_sum(kernels: &[f64], x: [f64; 3]) -> f64
    ensures { result ≡ densitize_of (kernel_at kernels.now) (length kernels.now / 6) x }
{
    let mut rho = 0.0;
    for i in 0..kernels.len() / 6 {
        rho += density_of(kernel_at(kernels, i), x);
    }
    rho
}

// The density of a list of kernels at a point.
#[tactic(auto, unfolding(crate::specs::Densitize::densitized))]
pub fn densitize(kernels: &[f64], point: [f64; 3]) -> Result<f64, Refusal>
    ensures { measured_as result ≡ densitized kernels.now point }
{
    check_list(kernels)?;
    Ok(density_sum(kernels, point))
}
