// The bill before the work for C callers. Runs and answers cross as in volumes.
ghost use Rattle.std.specs.Prelude.{◌≡◌};
ghost use Rattle.bill.specs.Bill.{bill_of};
ghost use Rattle.crossing.specs.Bills.{bill_from};

use bill::bill;
use crossing::bills::CauchyBill;

// The bill of a list of kernels on a mesh of so many vertices and faces, whatever its radius: 2, 9 or 15.
// Nothing is fitted.
#[unsafe(no_mangle)]
pub extern "C" fn cauchy_bill(kernels: &[f64], verts: u32, faces: u32) -> CauchyBill
    ensures { result ≡ bill_from (bill_of kernels.now verts faces) }
{
    CauchyBill::from(bill(kernels, verts, faces))
}
