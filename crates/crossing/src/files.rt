// The loader of a kernel file that C names by a number.
ghost use Rattle.std.specs.Prelude.{◌≡◌};
ghost use Rattle.crossing.specs.Files.{loader_of};

use convert::file::Loader;

// No `From`: the numbers are C's, and the loader another crate's.
#[tactic(auto, unfolding(crate::specs::Files::loader_of))]
pub fn loader_of(loader: u32) -> Loader
    ensures { result ≡ loader_of loader }
{
    match loader {
        0 => Loader::Native,
        1 => Loader::Source,
        _ => Loader::Strict,
    }
}
