// What C gets of a bill.
ghost use Rattle.std.specs.Prelude.{◌≡◌};
ghost use Rattle.bill.specs.BillAnswer.{billed};
ghost use Rattle.crossing.specs.Bills.{bill_from};

use base::refusal::Refusal;
use bill::Billed;

// The number, then the most steps that puts of the kernels charge, and the most floats that a list of them
// needs.
#[repr(C)]
#[derive(Clone, Copy)]
pub struct CauchyBill {
    pub no: u32,
    pub steps: u64,
    pub floats: u64,
}

impl From<Result<Billed, Refusal>> for CauchyBill {
    ghost from_gives = { λ answer c. c ≡ bill_from (billed answer) };

    fn from(answer: Result<Billed, Refusal>) -> CauchyBill {
        match answer {
            Ok(bill) => CauchyBill {
                no: 0,
                steps: bill.steps,
                floats: bill.floats,
            },
            Err(refusal) => CauchyBill {
                no: u32::from(refusal),
                steps: 0,
                floats: 0,
            },
        }
    }
}
