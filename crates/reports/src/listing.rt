// The list of a store's pieces, rescaled.
ghost use Rattle.std.specs.Prelude.{◌≡◌, map};
ghost use Rattle.layout.specs.Layout.{width, place_limit};
ghost use Rattle.base.specs.Answers.{counted_as, outcome};
ghost use Rattle.readings.specs.Readings.{bare, applied, held_all_lem, read_step};
ghost use Rattle.readings.specs.Readings;

use base::refusal::Refusal;
use density::convention::Convention;
use readings::places::Places;
use readings::seen::seen_places;
use readings::shared::{by_mass, check_read};

// Writes the pieces that are seen, if the run has room for them, and answers how many they are.
fn list_pieces(seen: Places, v: Convention, out: &mut [f64]) -> Result<u32, Refusal>
    ensures { let parts = held_all_lem width seen.entry.floats.now seen.entry.words.now place_limit in
        outcome (counted_as result) out.new ≡ Readings.listing (applied v parts) (map bare parts) out.old }
{
    let count = seen.pieces();
    if 6 * count > out.len() {
        return Err(Refusal::ShortList);
    }
    seen.write_list(seen.scale(v), out);
    Ok(count as u32)
}

// Writes the pieces of the places in some layers into a lent run, six floats each, under a convention.
pub fn list(
    floats: &[f64],
    words: &[u32],
    v: Convention,
    layers: u32,
    out: &mut [f64],
) -> Result<u32, Refusal>
    ensures { outcome (counted_as result) out.new
        ≡ read_step width floats.now words.now layers (Readings.list v out.old) }
{
    check_read(floats, words, layers, by_mass(v))?;
    let seen = seen_places(words, layers);
    let places = Places {
        floats,
        words: &seen,
    };
    list_pieces(places, v, out)
}
