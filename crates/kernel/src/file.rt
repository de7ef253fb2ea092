// How one kernel of a file arrives: the crossing from kilometres, and the choice of the exponent.
// No function here has a `requires`.
ghost use Rattle.std.specs.Prelude.{◌≡◌};
ghost use Rattle.kernel.specs.File.{in_metres, exponent_or, from_file};

use crate::kernel::Kernel;

// A kernel's lengths as its file has them: the centre in kilometres, sigma per kilometre.
#[derive(Clone, Copy)]
pub struct Kilometres(pub [f64; 3], pub f64);

// A kernel's lengths as the store has them: the centre in metres, sigma per metre.
#[derive(Clone, Copy)]
pub struct Metres(pub [f64; 3], pub f64);

// The only crossing between the two units. A function with its name, and no `From`: `in_metres` is what it is proved
// to be, and a caller's line should say which way it crosses.
#[tactic(auto, unfolding(crate::specs::File::in_metres))]
pub fn to_metres(k: Kilometres) -> Metres
    ensures { result ≡ in_metres k }
{
    let c = k.0;
    Metres([c[0] * 1000.0, c[1] * 1000.0, c[2] * 1000.0], k.1 / 1000.0)
}

// The file's exponent if it is above 0, else the default, which is taken as it is.
#[tactic(auto, unfolding(crate::specs::File::exponent_or))]
pub fn exponent_or(exponent: Option<f64>, default: f64) -> f64
    ensures { result ≡ exponent_or exponent default }
{
    match exponent {
        Some(alpha) if alpha > 0.0 => alpha,
        _ => default,
    }
}

// One file kernel, carried across.
#[tactic(auto, unfolding(crate::specs::File::from_file))]
pub fn kernel_from_file(lengths: Kilometres, w: f64, exponent: Option<f64>, default: f64) -> Kernel
    ensures { result ≡ from_file lengths w exponent default }
{
    let m = to_metres(lengths);
    let c = m.0;
    Kernel {
        c,
        sigma: m.1,
        w,
        alpha: exponent_or(exponent, default),
    }
}
