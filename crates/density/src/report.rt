// The report of a density's mass. No function here has a `requires`.
ghost use Rattle.std.specs.Prelude.{◌≡◌};
ghost use Rattle.density.specs.Reports.{report_of, homogeneous_of};

use crate::convention::{Convention, applied_scale, bulk_of, rho0_scale, target_of};

// The masses before and after a convention's scale, and the mesh's volume.
#[repr(C)]
#[derive(Clone, Copy)]
pub struct MassReport {
    pub raw_mass: f64,
    pub rho0_scale: f64,
    pub rho0_mass: f64,
    pub applied_scale: f64,
    pub applied_mass: f64,
    pub target_mass: f64,
    pub volume: f64,
}

// The report under a convention, of the unscaled pieces' mass and their density at the origin.
#[tactic(auto, unfolding(crate::specs::Reports::report_of))]
pub fn report_of(v: Convention, raw: f64, rho0: f64, volume: f64) -> MassReport
    ensures { result ≡ report_of v raw rho0 volume }
{
    let scale = rho0_scale(bulk_of(v), rho0);
    let applied = applied_scale(v, raw, scale);
    MassReport {
        raw_mass: raw,
        rho0_scale: scale,
        rho0_mass: raw * scale,
        applied_scale: applied,
        applied_mass: raw * applied,
        target_mass: target_of(v),
        volume,
    }
}

// The report of a body of one density, which is taken as it is given.
#[tactic(auto, unfolding(crate::specs::Reports::homogeneous_of))]
pub fn homogeneous_of(bulk: f64, volume: f64) -> MassReport
    ensures { result ≡ homogeneous_of bulk volume }
{
    MassReport {
        raw_mass: bulk * volume,
        rho0_scale: 1.0,
        rho0_mass: bulk * volume,
        applied_scale: 1.0,
        applied_mass: bulk * volume,
        target_mass: 0.0,
        volume,
    }
}
