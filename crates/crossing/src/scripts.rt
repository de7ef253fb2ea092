// What C gets of a store's reader.
ghost use Rattle.std.specs.Prelude.{◌≡◌};
ghost use Rattle.reader.specs.Answers.{loaded};
ghost use Rattle.crossing.specs.StoreCrossing.{loaded_from};

use base::refusal::Refusal;
use reader::read::Loaded;

// The number, then the vertices and faces of the mesh and the lines of puts that were taken.
#[repr(C)]
#[derive(Clone, Copy)]
pub struct CauchyLoaded {
    pub no: u32,
    pub verts: u32,
    pub faces: u32,
    pub puts: u64,
}

impl From<Result<Loaded, Refusal>> for CauchyLoaded {
    ghost from_gives = { λ answer c. c ≡ loaded_from (loaded answer) };

    fn from(answer: Result<Loaded, Refusal>) -> CauchyLoaded {
        match answer {
            Ok(counts) => CauchyLoaded {
                no: 0,
                verts: counts.verts,
                faces: counts.faces,
                puts: counts.puts,
            },
            Err(refusal) => CauchyLoaded {
                no: u32::from(refusal),
                verts: 0,
                faces: 0,
                puts: 0,
            },
        }
    }
}
