// The density of a store at a point. The exported call has no `requires`.
ghost use Rattle.std.specs.Prelude.{◌≡◌, []};
ghost use Rattle.base.specs.Answers.{measured_as, outcome};
ghost use Rattle.layout.specs.Layout.{width};
ghost use Rattle.readings.specs.Readings.{read_step};
ghost use Rattle.readings.specs.Readings;

use crate::places::Places;
use crate::seen::seen_places;
use crate::shared::{by_mass, check_read};
use base::refusal::Refusal;
use density::convention::Convention;

// The density at a point of the places in some layers, under a convention.
pub fn density(
    floats: &[f64],
    words: &[u32],
    v: Convention,
    layers: u32,
    point: [f64; 3],
) -> Result<f64, Refusal>
    ensures { outcome (measured_as result) []
        ≡ read_step width floats.now words.now layers (Readings.density v point) }
{
    check_read(floats, words, layers, by_mass(v))?;
    let seen = seen_places(words, layers);
    let places = Places {
        floats,
        words: &seen,
    };
    Ok(places.density(places.scale(v), point))
}
