// What C gets of the calls that write kernels, and a float that C may leave out.
ghost use Rattle.std.specs.Prelude.{◌≡◌};
ghost use Rattle.base.specs.Answers.{counted_as, done_as};
ghost use Rattle.crossing.specs.Sources.{written_from, kernels_from, optional};

use base::refusal::Refusal;

// 01's number and how many kernels are written.
#[repr(C)]
#[derive(Clone, Copy)]
pub struct CauchyKernels {
    pub no: u32,
    pub kernels: u64,
}

impl From<Result<usize, Refusal>> for CauchyKernels {
    ghost from_gives = { λ answer c. c ≡ written_from (counted_as answer) };

    fn from(answer: Result<usize, Refusal>) -> CauchyKernels {
        match answer {
            Ok(kernels) => CauchyKernels {
                no: 0,
                kernels: kernels as u64,
            },
            Err(refusal) => CauchyKernels {
                no: u32::from(refusal),
                kernels: 0,
            },
        }
    }
}

// How many kernels are written by a call that writes all n of its list, or none. (No `From`, since n is the caller's.)
pub fn kernels_of(answer: Result<(), Refusal>, n: usize) -> CauchyKernels
    ensures { result ≡ kernels_from n (done_as answer) }
{
    CauchyKernels::from(answer.map(|()| n))
}

// A float that C may leave out: it is missing where its flag is 0.
pub fn optional(flag: u32, value: f64) -> Option<f64>
    ensures { result ≡ optional flag value }
{
    if flag == 0 { None } else { Some(value) }
}
