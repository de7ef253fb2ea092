// Kernel files for C callers. Runs and answers cross as in volumes; words past the kernels written stay,
// and at a refusal all do.
ghost use Rattle.std.specs.Prelude.{◌≡◌};
ghost use Rattle.convert.specs.Convert.{conversion};
ghost use Rattle.crossing.specs.Crossing.{lent, lent_from};
ghost use Rattle.crossing.specs.Files.{loader_of};
ghost use Rattle.crossing.specs.Sources.{written_from};

use convert::convert::convert;
use crossing::files::loader_of;
use crossing::sources::CauchyKernels;

// Writes the kernels of a file's bracket lines, in metres, six floats each, as a loader makes them, 0 the
// native one, 1 the source's, any other strict, where both agree: 20, 9 or 21.
#[unsafe(no_mangle)]
pub extern "C" fn cauchy_convert(
    lines: &[u8],
    default_alpha: f64,
    loader: u32,
    out: &mut [f64],
) -> CauchyKernels
    ensures { lent result out.new
        ≡ lent_from written_from (conversion lines.now default_alpha (loader_of loader)
        out.old) }
{
    CauchyKernels::from(convert(lines, default_alpha, loader_of(loader), out))
}
