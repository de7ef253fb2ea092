// The solver, one file kernel, and the pieces of a kernel or of a list for C callers. A run crosses as a
// pointer and a count of words.
ghost use Rattle.std.specs.Prelude.{◌≡◌};
ghost use Rattle.solve.specs.Solve.{solution};
ghost use Rattle.pieces.specs.Kernels.{decomposition};
ghost use Rattle.pieces.specs.Lists.{list_decomposition};
ghost use Rattle.crossing.specs.Crossing.{lent, lent_from, solved_from, crossed_kernel, kernel_pieces_from, list_pieces_from};

use crossing::kernels::{CauchyFileKernel, CauchyListPieces, CauchyPieces, CauchySolved};
use crossing::sources::optional;
use kernel::file::{Kilometres, kernel_from_file};
use kernel::kernel::Kernel;
use pieces::kernels::decompose_into;
use pieces::lists::decompose_list;
use solve::solve_linear_system;

// Solves n rows of n + 1 floats: 10 or 11.
#[unsafe(no_mangle)]
pub extern "C" fn cauchy_solve(n: usize, cells: &[f64], answer: &mut [f64]) -> CauchySolved
    ensures { lent result answer.new
        ≡ lent_from solved_from (solution n cells.now answer.old) }
{
    CauchySolved::from(solve_linear_system(n, cells, answer))
}

// Carries one file kernel across, with the file's default exponent.
#[unsafe(no_mangle)]
pub extern "C" fn cauchy_kernel_from_file(k: CauchyFileKernel, default: f64) -> Kernel
    ensures { result ≡ crossed_kernel k default }
{
    let c = k.c;
    kernel_from_file(
        Kilometres(c, k.sigma),
        k.w,
        optional(k.given, k.alpha),
        default,
    )
}

// Writes a kernel's pieces, on a body of this radius, as kernels of six floats each; 9 where the run
// is too short for them.
#[unsafe(no_mangle)]
pub extern "C" fn cauchy_decompose(k: Kernel, radius: f64, out: &mut [f64]) -> CauchyPieces
    ensures { lent result out.new
        ≡ lent_from kernel_pieces_from (decomposition k radius out.old) }
{
    CauchyPieces::from(decompose_into(k, radius, out))
}

// Writes the pieces of all kernels of a list, in its order, as kernels of six floats each; 9 where the
// list is not of sixes, or the run is too short for the pieces.
#[unsafe(no_mangle)]
pub extern "C" fn cauchy_decompose_list(
    kernels: &[f64],
    radius: f64,
    out: &mut [f64],
) -> CauchyListPieces
    ensures { lent result out.new
        ≡ lent_from list_pieces_from (list_decomposition kernels.now radius out.old) }
{
    CauchyListPieces::from(decompose_list(kernels, radius, out))
}
