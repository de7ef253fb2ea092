// A line of a kernel file, and the kernels that the loaders make of it. No function here has a `requires`.
ghost use Rattle.std.specs.Prelude.{◌≡◌};
ghost use Rattle.convert.specs.Loaders.{given_or, native_of, source_of, loaded, alike};

use base::floats::to_pattern;
use kernel::file::{Kilometres, Metres, exponent_or, kernel_from_file, to_metres};
use kernel::kernel::Kernel;

// What a line says: a kernel's centre and sigma in kilometres, its weight, and its exponent.
#[derive(Clone, Copy)]
pub struct FileKernel {
    pub x: f64,
    pub y: f64,
    pub z: f64,
    pub sigma: f64,
    pub w: f64,
    pub exponent: Option<f64>,
}

// Whose kernels are asked for.
#[derive(Clone, Copy)]
pub enum Loader {
    Native,
    Source,
    Strict,
}

// The file's exponent as it is, or the default where it is missing.
#[tactic(auto, unfolding(crate::specs::Loaders::given_or))]
fn given_or(exponent: Option<f64>, default: f64) -> f64
    ensures { result ≡ given_or exponent default }
{
    exponent.unwrap_or(default)
}

// The kernel by the native loader.
#[tactic(auto, unfolding(crate::specs::Loaders::native_of))]
fn native_kernel(f: FileKernel, default: f64) -> Kernel
    ensures { result ≡ native_of default f }
{
    kernel_from_file(
        Kilometres([f.x, f.y, f.z], f.sigma),
        f.w,
        f.exponent,
        default,
    )
}

// The kernel by the source's loader.
#[tactic(auto, unfolding(crate::specs::Loaders::source_of))]
fn source_kernel(f: FileKernel, default: f64) -> Kernel
    ensures { result ≡ source_of default f }
{
    let Metres(c, sigma) = to_metres(Kilometres([f.x, f.y, f.z], f.sigma));
    Kernel {
        c,
        sigma,
        w: f.w,
        alpha: given_or(f.exponent, default),
    }
}

// The kernel by the loader that is asked for; a strict one has the native's, which is the source's too.
#[tactic(auto, unfolding(crate::specs::Loaders::loaded))]
pub fn load(loader: Loader, f: FileKernel, default: f64) -> Kernel
    ensures { result ≡ loaded loader default f }
{
    match loader {
        Loader::Native | Loader::Strict => native_kernel(f, default),
        Loader::Source => source_kernel(f, default),
    }
}

// Whether both loaders make the same kernel: only their exponents can differ.
#[tactic(auto, using(crate::specs::ConvertLaws::alike_by_exponent))]
pub fn is_alike(f: FileKernel, default: f64) -> bool
    ensures { result ≡ alike default f }
{
    to_pattern(exponent_or(f.exponent, default)) == to_pattern(given_or(f.exponent, default))
}
