// A density kernel, w * (1 + sigma² * |x - c|²)^-alpha, in metres. A list of kernels is a slice, six floats each, and
// no type of its own: C lends it so, and `kernel_at`, `density_of` and the other definitions take the floats.
// Internal: a function with a `requires` is called by proved code alone.
ghost use Rattle.std.specs.Prelude.{◌≡◌, ◌+◌, ◌*◌, ◌≤◌, length};
ghost use Rattle.std.proofs.lemmas.List.Edits.{sets};
ghost use Rattle.kernel.specs.Kernels.{kernel_at, list_check, six, kernel_set};

use base::refusal::Refusal;

// Centre, inverse width, weight and exponent.
#[repr(C)]
#[derive(Clone, Copy)]
pub struct Kernel {
    pub c: [f64; 3],
    pub sigma: f64,
    pub w: f64,
    pub alpha: f64,
}

// Kernel i of a list.
#[tactic(auto, unfolding(crate::specs::Kernels::kernel_at))]
pub fn kernel_at(kernels: &[f64], i: usize) -> Kernel
    requires { 6 * i + 6 ≤ length kernels.now }
    ensures { result ≡ kernel_at kernels.now i }
{
    let o = 6 * i;
    Kernel {
        c: [kernels[o], kernels[o + 1], kernels[o + 2]],
        sigma: kernels[o + 3],
        w: kernels[o + 4],
        alpha: kernels[o + 5],
    }
}

// Refusal 9 of a list whose length is not a multiple of 6.
#[tactic(auto, unfolding(crate::specs::Kernels::list_check))]
pub fn check_list(kernels: &[f64]) -> Result<(), Refusal>
    ensures { result ≡ list_check kernels.now }
{
    if kernels.len() % 6 == 0 {
        return Ok(());
    }
    Err(Refusal::ShortList)
}

// Writes a kernel's six floats from index `at` on.
pub fn write_six(floats: &mut [f64], at: usize, k: Kernel)
    requires { at + 6 ≤ length floats.old }
    ensures { floats.new ≡ sets floats.old at (six k) }
{
    let c = k.c;
    floats[at..at + 6].copy_from_slice(&[c[0], c[1], c[2], k.sigma, k.w, k.alpha]);
}

// Writes a kernel to place i of a list.
#[tactic(auto, unfolding(crate::specs::Kernels::kernel_set))]
pub fn write_kernel(kernels: &mut [f64], i: usize, k: Kernel)
    requires { 6 * i + 6 ≤ length kernels.old }
    ensures { kernels.new ≡ kernel_set kernels.old i k }
{
    write_six(kernels, 6 * i, k);
}
