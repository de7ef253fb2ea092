// Sums over the pieces of a sound store, the filled places in order. The three are not one function with a closure for
// what is added: its contract would have to say of each piece that the closure may be called with it and what it
// answers there, which is longer than the loops.
// Internal: a function with a `requires` is called by proved code alone.
ghost use Rattle.std.specs.Prelude.{◌≡◌, ◌-◌, ◌≤◌, ◌<◌, length};
ghost use Rattle.base.specs.Floats.{+0};
ghost use Rattle.layout.specs.Layout.{width, place_limit, piece_limit, coords_from, status_of};
ghost use Rattle.readings.specs.Readings.{held_at, held_all_lem};
ghost use Rattle.readings.specs.Folds.{fold, scaled_step, origin_step, mass_step};

use crate::held::{piece_at, volume_at};
use crate::places::Places;
use density::densitize::density_of;
use layout::offsets::PLACES;

// The mass with the first `count` pieces of place i added, whatever the words say of the place.
#[tactic(auto, using(crate::specs::FoldLaws::piece_more))]
pub fn place_mass(floats: &[f64], i: usize, count: usize, start: f64) -> f64
    requires { (coords_from ≤ length floats.now) × (i < place_limit) × (count ≤ piece_limit) }
    ensures { result ≡ fold mass_step (held_at floats.now i count) start }
{
    let mut total = start;
    for j in 0..count {
        total += piece_at(floats, i, j).w * volume_at(floats, i, j);
    }
    total
}

impl<'a> Places<'a> {
    // The density at x with the pieces of place i added, by a scale.
    #[tactic(auto, using(crate::specs::FoldLaws::piece_more))]
    fn density_with(self, i: usize, s: f64, x: [f64; 3], start: f64) -> f64
        requires { i < place_limit }
        ensures { result ≡ fold (scaled_step s x)
            (held_at self.entry.floats.now i (status_of width self.entry.words.now i - 1)) start }
    {
        let mut rho = start;
        for j in 0..self.pieces_at(i) {
            rho += density_of(self.rescaled_at(i, j, s), x);
        }
        rho
    }

    // The density at x of all pieces, by a scale.
    #[tactic(auto, unfolding(crate::specs::Readings::held_all_lem), using(crate::specs::FoldLaws::place_more))]
    pub fn density(self, s: f64, x: [f64; 3]) -> f64
        ensures { let parts = held_all_lem width self.entry.floats.now self.entry.words.now place_limit in
            result ≡ fold (scaled_step s x) parts +0 }
    {
        let mut rho = 0.0;
        for i in 0..PLACES {
            rho = self.density_with(i, s, x, rho);
        }
        rho
    }

    // The density at the origin with the pieces of place i added, their weights as they are.
    #[tactic(auto, using(crate::specs::FoldLaws::piece_more))]
    fn origin_density_with(self, i: usize, start: f64) -> f64
        requires { i < place_limit }
        ensures { result ≡ fold origin_step
            (held_at self.entry.floats.now i (status_of width self.entry.words.now i - 1)) start }
    {
        let mut rho = start;
        for j in 0..self.pieces_at(i) {
            rho += density_of(self.piece_at(i, j), [0.0, 0.0, 0.0]);
        }
        rho
    }

    // The density at the origin of all pieces.
    #[tactic(auto, unfolding(crate::specs::Readings::held_all_lem), using(crate::specs::FoldLaws::place_more))]
    pub fn origin_density(self) -> f64
        ensures { let parts = held_all_lem width self.entry.floats.now self.entry.words.now place_limit in
            result ≡ fold origin_step parts +0 }
    {
        let mut rho = 0.0;
        for i in 0..PLACES {
            rho = self.origin_density_with(i, rho);
        }
        rho
    }

    // The mass with the pieces of place i added.
    pub fn mass_with(self, i: usize, start: f64) -> f64
        requires { i < place_limit }
        ensures { result ≡ fold mass_step
            (held_at self.entry.floats.now i (status_of width self.entry.words.now i - 1)) start }
    {
        place_mass(self.floats, i, self.pieces_at(i), start)
    }

    // The mass of all pieces, by the volumes that the store holds.
    #[tactic(auto, unfolding(crate::specs::Readings::held_all_lem), using(crate::specs::FoldLaws::place_more))]
    pub fn mass(self) -> f64
        ensures { let parts = held_all_lem width self.entry.floats.now self.entry.words.now place_limit in
            result ≡ fold mass_step parts +0 }
    {
        let mut total = 0.0;
        for i in 0..PLACES {
            total = self.mass_with(i, total);
        }
        total
    }
}
