// What C gets of volumes, centroid, mass, density and the homogeneous report.
ghost use Rattle.std.specs.Prelude.{◌≡◌};
ghost use Rattle.base.specs.Answers.{measured_as};
ghost use Rattle.mass.specs.Calls.{located_as};
ghost use Rattle.mass.specs.Homogeneous.{reported_as};
ghost use Rattle.crossing.specs.Volumes.{value_from, point_from, no_report, report_from};

use base::refusal::Refusal;
use density::report::MassReport;
use mesh::vectors::V3;

// 01's number and a float.
#[repr(C)]
#[derive(Clone, Copy)]
pub struct CauchyValue {
    pub no: u32,
    pub value: f64,
}

// 01's number and a point.
#[repr(C)]
#[derive(Clone, Copy)]
pub struct CauchyPoint {
    pub no: u32,
    pub at: V3,
}

// 01's number and a report of masses.
#[repr(C)]
#[derive(Clone, Copy)]
pub struct CauchyReport {
    pub no: u32,
    pub report: MassReport,
}

impl From<Result<f64, Refusal>> for CauchyValue {
    ghost from_gives = { λ answer c. c ≡ value_from (measured_as answer) };

    fn from(answer: Result<f64, Refusal>) -> CauchyValue {
        match answer {
            Ok(value) => CauchyValue { no: 0, value },
            Err(refusal) => CauchyValue {
                no: u32::from(refusal),
                value: 0.0,
            },
        }
    }
}

impl From<Result<V3, Refusal>> for CauchyPoint {
    ghost from_gives = { λ answer c. c ≡ point_from (located_as answer) };

    fn from(answer: Result<V3, Refusal>) -> CauchyPoint {
        match answer {
            Ok(at) => CauchyPoint { no: 0, at },
            Err(refusal) => CauchyPoint {
                no: u32::from(refusal),
                at: V3 {
                    x: 0.0,
                    y: 0.0,
                    z: 0.0,
                },
            },
        }
    }
}

// The report of a call that is refused.
pub fn no_report() -> MassReport
    ensures { result ≡ no_report }
{
    MassReport {
        raw_mass: 0.0,
        rho0_scale: 0.0,
        rho0_mass: 0.0,
        applied_scale: 0.0,
        applied_mass: 0.0,
        target_mass: 0.0,
        volume: 0.0,
    }
}

impl From<Result<MassReport, Refusal>> for CauchyReport {
    ghost from_gives = { λ answer c. c ≡ report_from (reported_as answer) };

    fn from(answer: Result<MassReport, Refusal>) -> CauchyReport {
        match answer {
            Ok(report) => CauchyReport { no: 0, report },
            Err(refusal) => CauchyReport {
                no: u32::from(refusal),
                report: no_report(),
            },
        }
    }
}
