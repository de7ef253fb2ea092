// 01's roots and powers, and `radial_g`, as C functions on plain numbers, double to double.
ghost use Rattle.std.specs.Prelude.{◌≡◌};
ghost use Rattle.std.specs.Float.{binary64};
ghost use Rattle.root.specs.Root.{square_root};
ghost use Rattle.powers.specs.Arc.{arc};
ghost use Rattle.powers.specs.Log.{log};
ghost use Rattle.powers.specs.Exp.{exp};
ghost use Rattle.powers.specs.Power.{power, ten_to, log10};
ghost use Rattle.radial.specs.Radial.{radial_g};

// The square root.
#[unsafe(no_mangle)]
pub extern "C" fn cauchy_root(x: f64) -> f64
    ensures { result ≡ square_root binary64 x }
{
    root::root(x)
}

// A(t), the arc tangent.
#[unsafe(no_mangle)]
pub extern "C" fn cauchy_arc(t: f64) -> f64
    ensures { result ≡ arc t }
{
    powers::arc::arc(t)
}

// L(b), the logarithm to base 2.
#[unsafe(no_mangle)]
pub extern "C" fn cauchy_log(b: f64) -> f64
    ensures { result ≡ log b }
{
    powers::log::log(b)
}

// E(y), two to the power y.
#[unsafe(no_mangle)]
pub extern "C" fn cauchy_exp(y: f64) -> f64
    ensures { result ≡ exp y }
{
    powers::exp::exp(y)
}

// P(b, y), b to the power y.
#[unsafe(no_mangle)]
pub extern "C" fn cauchy_power(b: f64, y: f64) -> f64
    ensures { result ≡ power b y }
{
    powers::power::power(b, y)
}

// T(y), ten to the power y.
#[unsafe(no_mangle)]
pub extern "C" fn cauchy_ten(y: f64) -> f64
    ensures { result ≡ ten_to y }
{
    powers::power::ten(y)
}

// The logarithm to base ten.
#[unsafe(no_mangle)]
pub extern "C" fn cauchy_log10(b: f64) -> f64
    ensures { result ≡ log10 b }
{
    powers::power::log10(b)
}

// g(t) = (t - A(t)) / t³, the radial factor that a kernel's volume is summed with.
#[unsafe(no_mangle)]
pub extern "C" fn cauchy_radial_g(t: f64) -> f64
    ensures { result ≡ radial_g t }
{
    radial::radial_g(t)
}
