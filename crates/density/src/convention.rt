// The conventions on the kernels' weights and the scales that they apply. No function here has a `requires`.
ghost use Rattle.std.specs.Prelude.{◌≡◌};
ghost use Rattle.density.specs.Conventions.{above_zero_or, bulk_of, target_of, rho0_scale_lem, scalable, mass_scale, applied_scale_lem};

use base::floats::abs;

// Raw; rho0 with a bulk density; mass with a target, then a bulk density.
#[derive(Clone, Copy)]
pub enum Convention {
    Raw,
    Rho0(f64),
    Mass(f64, f64),
}

// x where it is above 0, else d; a NaN is not above 0.
fn above_zero_or(x: f64, d: f64) -> f64
    ensures { result ≡ above_zero_or x d }
{
    if x > 0.0 { x } else { d }
}

// The bulk density that the convention's scale aims at.
#[tactic(auto, unfolding(crate::specs::Conventions::bulk_of))]
pub fn bulk_of(v: Convention) -> f64
    ensures { result ≡ bulk_of v }
{
    match v {
        Convention::Raw => 1190.0,
        Convention::Rho0(bulk) => above_zero_or(bulk, 1190.0),
        Convention::Mass(_, bulk) => above_zero_or(bulk, 1190.0),
    }
}

// The mass that the convention aims at; +0 where it has none, as the report that C gets has it (`report_of`). Not by a
// maximum, which could keep -0.
#[tactic(auto, unfolding(crate::specs::Conventions::target_of))]
pub fn target_of(v: Convention) -> f64
    ensures { result ≡ target_of v }
{
    match v {
        Convention::Raw => 0.0,
        Convention::Rho0(_) => 0.0,
        Convention::Mass(target, _) => above_zero_or(target, 0.0),
    }
}

// The scale that brings the density at the origin to the bulk density.
#[tactic(auto, unfolding(crate::specs::Conventions::rho0_scale_lem))]
pub fn rho0_scale(bulk: f64, rho0: f64) -> f64
    ensures { result ≡ rho0_scale_lem bulk rho0 }
{
    if abs(rho0) > 1e-30 { bulk / rho0 } else { 1.0 }
}

// Whether there is a target, and a mass to scale.
#[tactic(auto, using(crate::specs::Laws::finite_is))]
pub fn scalable(target: f64, raw: f64) -> bool
    ensures { result ≡ scalable target raw }
{
    (target > 0.0) & raw.is_finite() & (abs(raw) > 1e-30)
}

// The scale that brings the raw mass to the target, where there is a target and a mass to scale; else that of rho0.
#[tactic(auto, unfolding(crate::specs::Conventions::mass_scale))]
fn mass_scale(target: f64, raw: f64, scale: f64) -> f64
    ensures { result ≡ mass_scale target raw scale }
{
    if scalable(target, raw) {
        target / raw
    } else {
        scale
    }
}

// The scale that the convention puts on every weight.
#[tactic(auto, unfolding(crate::specs::Conventions::applied_scale_lem))]
pub fn applied_scale(v: Convention, raw: f64, scale: f64) -> f64
    ensures { result ≡ applied_scale_lem v raw scale }
{
    match v {
        Convention::Raw => 1.0,
        Convention::Rho0(_) => scale,
        Convention::Mass(_, _) => mass_scale(target_of(v), raw, scale),
    }
}
