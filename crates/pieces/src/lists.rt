// The pieces of a list of kernels, six floats each, in a run that the caller lends. The exported
// `decompose_list` has no `requires`.
// Internal: a function with a `requires` is called by proved code alone.
ghost use Rattle.std.specs.Prelude.{◌≡◌, ◌*◌, ◌/◌, ◌≤◌, leb, length};
ghost use Rattle.base.specs.Answers.{outcome};
ghost use Rattle.pieces.specs.Lists.{piece_count, greatest_error, spread, listed_as, list_decomposition};

use crate::kernels::lay_pieces;
use crate::pieces::decompose;
use base::floats::greater_of;
use base::refusal::Refusal;
use kernel::kernel::{check_list, kernel_at};

// What the decomposition of a list answers: how many kernels it has, how many pieces of theirs are written, and the
// greatest of the fits' peak errors.
#[derive(Clone, Copy)]
pub struct DecomposedList {
    pub kernels: usize,
    pub pieces: usize,
    pub error: f64,
}

// Whether the pieces of all kernels are no more than `room`. With room for 16 each they are, and none is fitted to
// tell; else each is fitted here, and once more where its pieces are written. (Here and below by a kernel's number: of
// each six floats cut out of the list the kernel would be `kernel_at(six, 0)`, which is no plainer.)
#[tactic(auto, unfolding(crate::specs::Lists::piece_count), using(crate::proofs::ListLaws::room_for_16, crate::proofs::ListLaws::room_next))]
fn has_room(kernels: &[f64], radius: f64, room: usize) -> bool
    ensures { result ≡ leb (piece_count kernels.now radius (length kernels.now / 6)) room }
{
    let n = kernels.len() / 6;
    if n <= room / 16 {
        return true;
    }
    let mut left = room;
    for i in 0..n {
        let p = decompose(kernel_at(kernels, i), radius).pieces;
        if left < p.count {
            return false;
        }
        left -= p.count;
    }
    true
}

// Writes the pieces of all kernels to the start of a run.
#[tactic(auto, unfolding(crate::specs::Lists::piece_count, crate::specs::Lists::greatest_error, crate::specs::Lists::spread))]
fn write_pieces(kernels: &[f64], radius: f64, out: &mut [f64]) -> DecomposedList
    requires { 6 * piece_count kernels.now radius (length kernels.now / 6) ≤ length out.old }
    ensures kernels { result.kernels ≡ length kernels.now / 6 }
    ensures pieces { result.pieces ≡ piece_count kernels.now radius (length kernels.now / 6) }
    ensures error { result.error ≡ greatest_error kernels.now radius (length kernels.now / 6) }
    ensures run { out.new ≡ spread kernels.now radius (length kernels.now / 6) out.old }
{
    let n = kernels.len() / 6;
    let mut pieces = 0;
    let mut error = 0.0;
    for i in 0..n {
        let k = kernel_at(kernels, i);
        let p = decompose(k, radius).pieces;
        lay_pieces(out, pieces, k, &p);
        pieces += p.count;
        error = greater_of(error, p.error);
    }
    DecomposedList {
        kernels: n,
        pieces,
        error,
    }
}

// Decomposes a list of kernels on a body of this radius and writes their pieces to the start of the run,
// in the order of the list. Words past them, and the whole run at a refusal, stay as they were.
#[tactic(auto, unfolding(crate::specs::Lists::list_decomposition), using(crate::proofs::ListLaws::room_of))]
pub fn decompose_list(
    kernels: &[f64],
    radius: f64,
    out: &mut [f64],
) -> Result<DecomposedList, Refusal>
    ensures { outcome (listed_as result) out.new
        ≡ list_decomposition kernels.now radius out.old }
{
    check_list(kernels)?;
    if !has_room(kernels, radius, out.len() / 6) {
        return Err(Refusal::ShortList);
    }
    Ok(write_pieces(kernels, radius, out))
}
