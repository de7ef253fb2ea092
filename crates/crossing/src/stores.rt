// What C gets of each call on a store, and a convention as C gives it.
ghost use Rattle.std.specs.Prelude.{◌≡◌};
ghost use Rattle.store.specs.OpenAnswer.{opened};
ghost use Rattle.store.specs.PutAnswer.{placed};
ghost use Rattle.advance.specs.AdvanceAnswer.{advanced};
ghost use Rattle.adopt.specs.AdoptAnswer.{adopting};
ghost use Rattle.reports.specs.FinishedAnswer.{finished_read};
ghost use Rattle.reports.specs.ReportAnswer.{report_read};
ghost use Rattle.base.specs.Answers.{counted_as};
ghost use Rattle.crossing.specs.StoreCrossing.{opened_from, placed_from, steps_from, adopted_from, squeezed_from, convention_of, store_report_from, finished_from, listed_from, track_from, bytes_from};

use crate::kernels::{CauchyFit, no_fit};
use crate::volumes::no_report;
use adopt::adopt::Adopted;
use advance::advance::Advanced;
use base::refusal::Refusal;
use density::convention::Convention;
use density::report::MassReport;
use reports::reports::{Finished, Totals};
use store::open::Opened;
use store::put::Placed;

// 01's number, then the vertices and faces of the mesh.
#[repr(C)]
#[derive(Clone, Copy)]
pub struct CauchyOpened {
    pub no: u32,
    pub verts: u32,
    pub faces: u32,
}

// 01's number, then the kernel's pieces, the steps that they need, and how their fit ended.
#[repr(C)]
#[derive(Clone, Copy)]
pub struct CauchyPlaced {
    pub no: u32,
    pub pieces: u32,
    pub need: u32,
    pub fit: CauchyFit,
}

// 01's number, then the coordinates freed.
#[repr(C)]
#[derive(Clone, Copy)]
pub struct CauchySqueezed {
    pub no: u32,
    pub freed: u32,
}

// 01's number, then the steps done and left.
#[repr(C)]
#[derive(Clone, Copy)]
pub struct CauchySteps {
    pub no: u32,
    pub done: u64,
    pub left: u64,
}

// 01's number, then 1 where the other store is of the same body and 0 where it is not, the pieces of the place that
// came across and the steps that it has left.
#[repr(C)]
#[derive(Clone, Copy)]
pub struct CauchyAdopted {
    pub no: u32,
    pub same_body: u32,
    pub pieces: u32,
    pub left: u64,
}

impl From<Result<Opened, Refusal>> for CauchyOpened {
    ghost from_gives = { λ answer c. c ≡ opened_from (opened answer) };

    fn from(answer: Result<Opened, Refusal>) -> CauchyOpened {
        match answer {
            Ok(opened) => CauchyOpened {
                no: 0,
                verts: opened.verts,
                faces: opened.faces,
            },
            Err(refusal) => CauchyOpened {
                no: u32::from(refusal),
                verts: 0,
                faces: 0,
            },
        }
    }
}

impl From<Result<Placed, Refusal>> for CauchyPlaced {
    ghost from_gives = { λ answer c. c ≡ placed_from (placed answer) };

    fn from(answer: Result<Placed, Refusal>) -> CauchyPlaced {
        match answer {
            Ok(placed) => CauchyPlaced {
                no: 0,
                pieces: placed.pieces,
                need: placed.steps,
                fit: CauchyFit::from(placed.fit),
            },
            Err(refusal) => CauchyPlaced {
                no: u32::from(refusal),
                pieces: 0,
                need: 0,
                fit: no_fit(),
            },
        }
    }
}

impl From<Result<u32, Refusal>> for CauchySqueezed {
    ghost from_gives = { λ answer c. c ≡ squeezed_from (counted_as answer) };

    fn from(answer: Result<u32, Refusal>) -> CauchySqueezed {
        match answer {
            Ok(freed) => CauchySqueezed { no: 0, freed },
            Err(refusal) => CauchySqueezed {
                no: u32::from(refusal),
                freed: 0,
            },
        }
    }
}

impl From<Result<Advanced, Refusal>> for CauchySteps {
    ghost from_gives = { λ answer c. c ≡ steps_from (advanced answer) };

    fn from(answer: Result<Advanced, Refusal>) -> CauchySteps {
        match answer {
            Ok(steps) => CauchySteps {
                no: 0,
                done: steps.done,
                left: steps.left,
            },
            Err(refusal) => CauchySteps {
                no: u32::from(refusal),
                done: 0,
                left: 0,
            },
        }
    }
}

impl From<Result<Option<Adopted>, Refusal>> for CauchyAdopted {
    ghost from_gives = { λ answer c. c ≡ adopted_from (adopting answer) };

    fn from(answer: Result<Option<Adopted>, Refusal>) -> CauchyAdopted {
        match answer {
            Ok(Some(adopted)) => CauchyAdopted {
                no: 0,
                same_body: 1,
                pieces: adopted.pieces,
                left: adopted.left,
            },
            Ok(None) => CauchyAdopted {
                no: 0,
                same_body: 0,
                pieces: 0,
                left: 0,
            },
            Err(refusal) => CauchyAdopted {
                no: u32::from(refusal),
                same_body: 0,
                pieces: 0,
                left: 0,
            },
        }
    }
}

// A convention by its kind: 0 raw; 1 rho0, with the bulk density; any other is mass, with the target and
// the bulk density.
#[repr(C)]
#[derive(Clone, Copy)]
pub struct CauchyConvention {
    pub kind: u32,
    pub target: f64,
    pub bulk: f64,
}

// 01's number, then the report of masses, the filled places, the pieces and the greatest error of a fit.
#[repr(C)]
#[derive(Clone, Copy)]
pub struct CauchyStoreReport {
    pub no: u32,
    pub report: MassReport,
    pub kernels: u32,
    pub pieces: u32,
    pub error: f64,
}

// The number, then the report of the places that are complete, as above, and the filled places passed over.
#[repr(C)]
#[derive(Clone, Copy)]
pub struct CauchyFinished {
    pub no: u32,
    pub report: MassReport,
    pub kernels: u32,
    pub pieces: u32,
    pub error: f64,
    pub passed_over: u32,
}

// 01's number, then the pieces written.
#[repr(C)]
#[derive(Clone, Copy)]
pub struct CauchyListed {
    pub no: u32,
    pub pieces: u32,
}

// The number, then the points that were written.
#[repr(C)]
#[derive(Clone, Copy)]
pub struct CauchyTrack {
    pub no: u32,
    pub points: u32,
}

// The number, then the bytes that were written.
#[repr(C)]
#[derive(Clone, Copy)]
pub struct CauchyBytes {
    pub no: u32,
    pub bytes: u64,
}

impl From<CauchyConvention> for Convention {
    ghost from_gives = { λ v convention. convention ≡ convention_of v };

    fn from(v: CauchyConvention) -> Convention {
        match v.kind {
            0 => Convention::Raw,
            1 => Convention::Rho0(v.bulk),
            _ => Convention::Mass(v.target, v.bulk),
        }
    }
}

impl From<Result<Totals, Refusal>> for CauchyStoreReport {
    ghost from_gives = { λ answer c. c ≡ store_report_from (report_read answer) };

    fn from(answer: Result<Totals, Refusal>) -> CauchyStoreReport {
        match answer {
            Ok(totals) => CauchyStoreReport {
                no: 0,
                report: totals.mass,
                kernels: totals.filled,
                pieces: totals.pieces,
                error: totals.error,
            },
            Err(refusal) => CauchyStoreReport {
                no: u32::from(refusal),
                report: no_report(),
                kernels: 0,
                pieces: 0,
                error: 0.0,
            },
        }
    }
}

impl From<Result<Finished, Refusal>> for CauchyFinished {
    ghost from_gives = { λ answer c. c ≡ finished_from (finished_read answer) };

    fn from(answer: Result<Finished, Refusal>) -> CauchyFinished {
        match answer {
            Ok(finished) => CauchyFinished {
                no: 0,
                report: finished.totals.mass,
                kernels: finished.totals.filled,
                pieces: finished.totals.pieces,
                error: finished.totals.error,
                passed_over: finished.passed,
            },
            Err(refusal) => CauchyFinished {
                no: u32::from(refusal),
                report: no_report(),
                kernels: 0,
                pieces: 0,
                error: 0.0,
                passed_over: 0,
            },
        }
    }
}

impl From<Result<u32, Refusal>> for CauchyListed {
    ghost from_gives = { λ answer c. c ≡ listed_from (counted_as answer) };

    fn from(answer: Result<u32, Refusal>) -> CauchyListed {
        match answer {
            Ok(pieces) => CauchyListed { no: 0, pieces },
            Err(refusal) => CauchyListed {
                no: u32::from(refusal),
                pieces: 0,
            },
        }
    }
}

impl From<Result<u32, Refusal>> for CauchyTrack {
    ghost from_gives = { λ answer c. c ≡ track_from (counted_as answer) };

    fn from(answer: Result<u32, Refusal>) -> CauchyTrack {
        match answer {
            Ok(points) => CauchyTrack { no: 0, points },
            Err(refusal) => CauchyTrack {
                no: u32::from(refusal),
                points: 0,
            },
        }
    }
}

impl From<Result<u64, Refusal>> for CauchyBytes {
    ghost from_gives = { λ answer c. c ≡ bytes_from (counted_as answer) };

    fn from(answer: Result<u64, Refusal>) -> CauchyBytes {
        match answer {
            Ok(bytes) => CauchyBytes { no: 0, bytes },
            Err(refusal) => CauchyBytes {
                no: u32::from(refusal),
                bytes: 0,
            },
        }
    }
}
