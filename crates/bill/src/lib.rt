// The bill before the work: how many steps puts of these kernels can charge at most, and how many floats a
// list of them can need. Nothing is fitted. The exported function has no `requires`.
#![tactic(auto)]

ghost use Rattle.std.specs.Prelude.{◌≡◌, ◌/◌, ◌≤◌, length};
ghost use Rattle.pieces.specs.Pieces.{most_pieces};
ghost use Rattle.bill.specs.Bill.{assumed_of, bill_check, bill_of};
ghost use Rattle.bill.specs.BillAnswer.{billed};

use base::floats::abs;
use base::refusal::Refusal;
use kernel::kernel::{check_list, kernel_at};
use mesh::check::{FACE_LIMIT, VERTEX_LIMIT};
use pieces::pieces::size_of;

// A bill: the most steps that puts of the kernels charge, and the most floats that a list of them needs. (Not `Bill`,
// since names that differ only in case, as `bill`'s would, are refused in one module.)
#[derive(Clone, Copy)]
pub struct Billed {
    pub steps: u64,
    pub floats: u64,
}

// The most pieces that a kernel of this exponent can have. (The test is that of `decompose`, not strict, while density's
// is strict: each is as its definition has it, so no method of `Kernel` is both.)
#[tactic(auto, using(crate::proofs::Bills::few_terms))]
fn most_pieces(alpha: f64) -> usize
    ensures value { result ≡ most_pieces alpha }
    ensures few { result ≤ 16 }
{
    let delta = abs(alpha - 1.0);
    if delta <= 1e-9 {
        return 1;
    }
    size_of(delta).terms
}

// The most pieces that the kernels can have together. (By a kernel's number: of each six floats cut out of the list the
// kernel would be `kernel_at(six, 0)`, which is no plainer.)
#[tactic(auto, unfolding(crate::specs::Bill::assumed))]
fn assumed_pieces(kernels: &[f64]) -> usize
    requires { length kernels.now / 6 ≤ 32 }
    ensures value { result ≡ assumed_of kernels.now }
    ensures few { result ≤ 512 }
{
    let mut pieces = 0;
    for i in 0..kernels.len() / 6 {
        pieces += most_pieces(kernel_at(kernels, i).alpha);
    }
    pieces
}

// Refusals 2, 9 and 15, the first of them that applies.
#[tactic(auto, unfolding(crate::specs::Bill::bill_check))]
fn check_bill(kernels: &[f64], verts: u32, faces: u32) -> Result<(), Refusal>
    ensures { result ≡ bill_check kernels.now verts faces }
{
    if verts > VERTEX_LIMIT || faces > FACE_LIMIT {
        return Err(Refusal::Oversize);
    }
    check_list(kernels)?;
    if kernels.len() / 6 > 32 {
        return Err(Refusal::ManyKernels);
    }
    Ok(())
}

// The bill of these kernels on a mesh of so many vertices and faces, whatever its radius: 2, 9 or 15.
#[tactic(auto, unfolding(crate::specs::Bill::bill_of, crate::specs::Bill::bill_steps, crate::specs::Bill::bill_floats), using(crate::proofs::Bills::passed_few))]
pub fn bill(kernels: &[f64], verts: u32, faces: u32) -> Result<Billed, Refusal>
    ensures { billed result ≡ bill_of kernels.now verts faces }
{
    check_bill(kernels, verts, faces)?;
    let pieces = assumed_pieces(kernels) as u64;
    Ok(Billed {
        steps: pieces * u64::from(faces),
        floats: 6 * pieces,
    })
}
