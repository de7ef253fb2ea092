// A kernel's pieces as kernels, six floats each, in a run that the caller lends.
// Internal: a function with a `requires` is called by proved code alone.
ghost use Rattle.std.specs.Prelude.{◌≡◌, ◌+◌, ◌*◌, ◌<◌, ◌≤◌, length};
ghost use Rattle.base.specs.Answers.{outcome};
ghost use Rattle.pieces.specs.Kernels.{as_kernel, laid, decomposed_as, decomposition};

use crate::fit::Fit;
use crate::pieces::{Decomposition, Piece, Pieces, decompose, piece_alpha};
use base::refusal::Refusal;
use kernel::kernel::{Kernel, write_kernel};

// What a decomposition answers: how many pieces are written, the fit's peak error and how it ended.
#[derive(Clone, Copy)]
pub struct Decomposed {
    pub pieces: usize,
    pub error: f64,
    pub fit: Fit,
}

// A piece of a kernel, as a kernel.
fn as_kernel(k: Kernel, piece: Piece) -> Kernel
    ensures { result ≡ as_kernel k piece }
{
    let c = k.c;
    Kernel {
        c,
        sigma: piece.sigma,
        w: k.w * piece.coefficient,
        alpha: piece_alpha(k.alpha),
    }
}

// Writes the pieces to a run, behind the first `at` kernels in it.
#[tactic(auto, unfolding(crate::specs::Kernels::laid, crate::specs::Kernels::piece_at), using(crate::proofs::Turns::turns))]
pub fn lay_pieces(out: &mut [f64], at: usize, k: Kernel, p: &Pieces)
    requires { (p.now.count ≤ 16) × (6 * (at + p.now.count) ≤ length out.old) }
    ensures { out.new ≡ laid at k p.now out.old }
{
    for (i, piece) in p.list[..p.count].iter().enumerate() {
        write_kernel(out, at + i, as_kernel(k, *piece));
    }
}

// Decomposes a kernel on a body of this radius and writes its pieces to the start of the run. Words
// past them, and the whole run at a refusal, stay as they were.
#[tactic(auto, unfolding(crate::specs::Kernels::decomposition), using(crate::specs::PieceLaws::at_most_16))]
pub fn decompose_into(k: Kernel, radius: f64, out: &mut [f64]) -> Result<Decomposed, Refusal>
    ensures { outcome (decomposed_as result) out.new ≡ decomposition k radius out.old }
{
    let Decomposition { pieces, fit } = decompose(k, radius);
    if out.len() < 6 * pieces.count {
        return Err(Refusal::ShortList);
    }
    lay_pieces(out, 0, k, &pieces);
    Ok(Decomposed {
        pieces: pieces.count,
        error: pieces.error,
        fit,
    })
}
