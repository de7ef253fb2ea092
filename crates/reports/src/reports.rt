// The report of a store.
// Internal: a function with a `requires` is called by proved code alone.
ghost use Rattle.std.specs.Prelude.{◌≡◌, []};
ghost use Rattle.volume.specs.Volume.{body_volume};
ghost use Rattle.layout.specs.Layout.{width};
ghost use Rattle.layout.specs.SoundLaws.{Meshed};
ghost use Rattle.layout.specs.Left.{held};
ghost use Rattle.base.specs.Answers.{outcome};
ghost use Rattle.readings.specs.Readings.{answer_of, seen_by_lem, read_step};
ghost use Rattle.readings.specs.Readings;
ghost use Rattle.reports.specs.ReportAnswer.{totals_read, report_read};

use base::refusal::Refusal;
use density::convention::Convention;
use density::report::{MassReport, report_of};
use layout::offsets::{COORDS, CORNERS};
use layout::runs::word;
use mesh::triangles::Mesh;
use readings::places::Places;
use readings::seen::seen_places;
use readings::shared::check_read;
use volume::faces::body_volume_of;

// What a report tells of the places that it covers: the masses, the filled places, the pieces, and the greatest error.
#[derive(Clone, Copy)]
pub struct Totals {
    pub mass: MassReport,
    pub filled: u32,
    pub pieces: u32,
    pub error: f64,
}

// What a report of the finished places tells of them, and how many filled places it passed over.
#[derive(Clone, Copy)]
pub struct Finished {
    pub totals: Totals,
    pub passed: u32,
}

// The volume of the mesh that a sound store holds.
pub fn body_of(floats: &[f64], words: &[u32], verts: usize, faces: usize) -> f64
    requires { Meshed width floats.now words.now verts faces }
    ensures { result ≡ body_volume (held width floats.now words.now verts faces) faces }
{
    let coords_end = COORDS + 3 * verts;
    let corners_end = CORNERS + 3 * faces;
    body_volume_of(Mesh {
        xyz: &floats[COORDS..coords_end],
        faces: &words[CORNERS..corners_end],
    })
}

// The report over the places that are seen, of a store whose mesh has the volume `body`.
pub fn report_seen(seen: Places, v: Convention, body: f64) -> Totals
    ensures { outcome (totals_read result) []
        ≡ answer_of (Readings.report v) (seen_by_lem width seen.entry.floats.now seen.entry.words.now body) }
{
    Totals {
        mass: report_of(v, seen.mass(), seen.origin_density(), body),
        filled: seen.filled() as u32,
        pieces: seen.pieces() as u32,
        error: seen.worst_error(),
    }
}

// The masses of the places in some layers, none of which has work left, under a convention.
pub fn report(floats: &[f64], words: &[u32], v: Convention, layers: u32) -> Result<Totals, Refusal>
    ensures { outcome (report_read result) []
        ≡ read_step width floats.now words.now layers (Readings.report v) }
{
    check_read(floats, words, layers, true)?;
    let seen = seen_places(words, layers);
    let places = Places {
        floats,
        words: &seen,
    };
    Ok(report_seen(
        places,
        v,
        body_of(floats, words, word(words, 0), word(words, 1)),
    ))
}
