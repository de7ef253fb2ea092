// The converter. The exported `convert` has no `requires`; a refused call changes nothing.
// Internal: a function with a `requires` is called by proved code alone.
ghost use Rattle.std.specs.Prelude.{◌≡◌, map, ◌*◌, ◌≤◌, length};
ghost use Rattle.base.specs.Answers.{outcome};
ghost use Rattle.text.specs.Text.{left};
ghost use Rattle.convert.specs.Loaders.{loaded};
ghost use Rattle.convert.specs.Lines.{lines_in};
ghost use Rattle.convert.specs.Convert.{laid_from, strict_check, conversion};
ghost use Rattle.convert.specs.ConvertAnswer.{converted_as};

use crate::file::{Loader, load};
use crate::lines::{read_kernel, scan_lines};
use base::refusal::Refusal;
use kernel::kernel::write_kernel;

// Refusal 21, which only the strict form has.
fn check_strict(loader: Loader, same: bool) -> Result<(), Refusal>
    ensures { result ≡ strict_check loader same }
{
    match loader {
        Loader::Strict if !same => Err(Refusal::LoadersDiffer),
        _ => Ok(()),
    }
}

// Reads the first n lines once more and writes their kernels to the start of the run.
#[tactic(auto, using(crate::proofs::Writes::none_laid, crate::proofs::Writes::all_laid))]
fn write_lines(s: &[u8], default: f64, loader: Loader, n: usize, out: &mut [f64])
    requires { 6 * n ≤ length out.old }
    ensures { out.new ≡ laid_from (map (loaded loader default) (lines_in n (left s.now))) 0
        out.old }
{
    let mut at = 0;
    for i in 0..n {
        let line = read_kernel(s, at);
        write_kernel(out, i, load(loader, line.value, default));
        at = line.at;
    }
}

// Writes the kernels of a file's lines, in metres, as a loader makes them, six floats each: 20, 9 or 21. Answers how
// many. Words past them, and the whole run at a refusal, stay as they were.
#[tactic(auto, unfolding(crate::specs::Convert::conversion), using(crate::proofs::Scans::first_lines))]
pub fn convert(s: &[u8], default: f64, loader: Loader, out: &mut [f64]) -> Result<usize, Refusal>
    ensures { outcome (converted_as result) out.new
        ≡ conversion s.now default loader out.old }
{
    let scan = scan_lines(s, default);
    if !scan.ended {
        return Err(Refusal::BadKernelLine);
    }
    if out.len() / 6 < scan.lines {
        return Err(Refusal::ShortList);
    }
    check_strict(loader, scan.same)?;
    write_lines(s, default, loader, scan.lines, out);
    Ok(scan.lines)
}
