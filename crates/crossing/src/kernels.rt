// What C gets of the solver, of how a fit ended, and of the pieces of a kernel or of a list; and a kernel of a file as
// C gives it.
ghost use Rattle.std.specs.Prelude.{◌≡◌};
ghost use Rattle.solve.specs.Solve.{solved_as};
ghost use Rattle.pieces.specs.Kernels.{decomposed_as};
ghost use Rattle.pieces.specs.Lists.{listed_as};
ghost use Rattle.crossing.specs.Crossing.{solved_from, fit_crossed, no_fit, kernel_pieces_from, list_pieces_from};

use base::refusal::Refusal;
use pieces::fit::Fit;
use pieces::kernels::Decomposed;
use pieces::lists::DecomposedList;
use solve::Unsolved;

// A kernel as its file has it, lengths in kilometres. The exponent is missing where `given` is 0.
#[repr(C)]
#[derive(Clone, Copy)]
pub struct CauchyFileKernel {
    pub c: [f64; 3],
    pub sigma: f64,
    pub w: f64,
    pub alpha: f64,
    pub given: u32,
}

// What the solver answers: 01's number, 0 where it is not refused; with 11 the column of the flat pivot, from 0;
// with 0 the smallest pivot that it accepted, in absolute value.
#[repr(C)]
#[derive(Clone, Copy)]
pub struct CauchySolved {
    pub no: u32,
    pub column: u32,
    pub pivot: f64,
}

// How a fit ended: the kind is 0 for kept, 1 for fitted, with the pivot, 2 for the fallback, with the column, and
// 3 for no exponent. What a kind does not use is 0.
#[repr(C)]
#[derive(Clone, Copy)]
pub struct CauchyFit {
    pub kind: u32,
    pub column: u32,
    pub pivot: f64,
}

// What a decomposition answers: 01's number, 0 where it is not refused, the count of pieces, the fit's peak
// error and how it ended.
#[repr(C)]
#[derive(Clone, Copy)]
pub struct CauchyPieces {
    pub no: u32,
    pub pieces: u64,
    pub error: f64,
    pub fit: CauchyFit,
}

// What the decomposition of a list answers: 01's number, the counts of kernels and pieces, and the
// greatest of the fits' peak errors.
#[repr(C)]
#[derive(Clone, Copy)]
pub struct CauchyListPieces {
    pub no: u32,
    pub kernels: u64,
    pub pieces: u64,
    pub error: f64,
}

impl From<Result<f64, Unsolved>> for CauchySolved {
    ghost from_gives = { λ answer c. c ≡ solved_from (solved_as answer) };

    fn from(answer: Result<f64, Unsolved>) -> CauchySolved {
        match answer {
            Ok(pivot) => CauchySolved {
                no: 0,
                column: 0,
                pivot,
            },
            Err(Unsolved::Flat(flat)) => CauchySolved {
                no: u32::from(Refusal::FlatPivot),
                column: flat.column,
                pivot: 0.0,
            },
            Err(Unsolved::Refused(refusal)) => CauchySolved {
                no: u32::from(refusal),
                column: 0,
                pivot: 0.0,
            },
        }
    }
}

impl From<Fit> for CauchyFit {
    ghost from_gives = { λ fit c. c ≡ fit_crossed fit };

    fn from(fit: Fit) -> CauchyFit {
        match fit {
            Fit::Kept => CauchyFit {
                kind: 0,
                column: 0,
                pivot: 0.0,
            },
            Fit::Fitted(pivot) => CauchyFit {
                kind: 1,
                column: 0,
                pivot,
            },
            Fit::Fallback(column) => CauchyFit {
                kind: 2,
                column,
                pivot: 0.0,
            },
            Fit::NoExponent => CauchyFit {
                kind: 3,
                column: 0,
                pivot: 0.0,
            },
        }
    }
}

// The fit of a call that is refused.
pub fn no_fit() -> CauchyFit
    ensures { result ≡ no_fit }
{
    CauchyFit {
        kind: 0,
        column: 0,
        pivot: 0.0,
    }
}

impl From<Result<Decomposed, Refusal>> for CauchyPieces {
    ghost from_gives = { λ answer c. c ≡ kernel_pieces_from (decomposed_as answer) };

    fn from(answer: Result<Decomposed, Refusal>) -> CauchyPieces {
        match answer {
            Ok(decomposed) => CauchyPieces {
                no: 0,
                pieces: decomposed.pieces as u64,
                error: decomposed.error,
                fit: CauchyFit::from(decomposed.fit),
            },
            Err(refusal) => CauchyPieces {
                no: u32::from(refusal),
                pieces: 0,
                error: 0.0,
                fit: no_fit(),
            },
        }
    }
}

impl From<Result<DecomposedList, Refusal>> for CauchyListPieces {
    ghost from_gives = { λ answer c. c ≡ list_pieces_from (listed_as answer) };

    fn from(answer: Result<DecomposedList, Refusal>) -> CauchyListPieces {
        match answer {
            Ok(decomposed) => CauchyListPieces {
                no: 0,
                kernels: decomposed.kernels as u64,
                pieces: decomposed.pieces as u64,
                error: decomposed.error,
            },
            Err(refusal) => CauchyListPieces {
                no: u32::from(refusal),
                kernels: 0,
                pieces: 0,
                error: 0.0,
            },
        }
    }
}
