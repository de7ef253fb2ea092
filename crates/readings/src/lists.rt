// The pieces of a sound store written into a lent run, six floats each.
// Internal: a function with a `requires` is called by proved code alone.
ghost use Rattle.std.specs.Prelude.{◌≡◌, ◌+◌, ◌-◌, ◌*◌, ◌≤◌, ◌<◌, length};
ghost use Rattle.layout.specs.Runs.{write};
ghost use Rattle.layout.specs.Layout.{width, place_limit, status_of};
ghost use Rattle.readings.specs.Readings.{held_at, held_all_lem};
ghost use Rattle.readings.specs.Counts.{held_pieces};
ghost use Rattle.readings.specs.Lists.{rescaled_sixes};

use crate::places::Places;
use kernel::kernel::write_six;
use layout::offsets::PLACES;

impl<'a> Places<'a> {
    // Writes the pieces of place i, by a scale.
    #[tactic(auto, using(crate::specs::Lists::none_listed, crate::specs::Lists::piece_listed))]
    fn write_place(self, i: usize, s: f64, out: &mut [f64], at: usize)
        requires { (i < place_limit) × (at + 6 * (status_of width self.words.now i - 1) ≤ length out.old) }
        ensures { out.new ≡ write out.old at (rescaled_sixes s
            (held_at self.entry.floats.now i (status_of width self.entry.words.now i - 1))) }
    {
        for j in 0..self.pieces_at(i) {
            write_six(out, at + 6 * j, self.rescaled_at(i, j, s));
        }
    }

    // Writes the pieces of all places, by a scale.
    #[tactic(auto, using(crate::specs::Lists::lists))]
    pub fn write_list(self, s: f64, out: &mut [f64])
        requires { 6 * held_pieces width self.words.now place_limit ≤ length out.old }
        ensures { out.new ≡ write out.old 0 (rescaled_sixes s
            (held_all_lem width self.entry.floats.now self.entry.words.now place_limit)) }
    {
        let mut at: usize = 0;
        for i in 0..PLACES {
            self.write_place(i, s, out, at);
            at += 6 * self.pieces_at(i);
        }
    }
}
