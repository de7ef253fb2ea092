// The masses that a page shows, place by place, and their sum.
// Internal: a function with a `requires` is called by proved code alone.
ghost use Rattle.std.specs.Prelude.{◌≡◌, true, ◌+◌, ◌*◌, ◌-◌, ◌≤◌, ◌<◌, pos, ◌+ℤ◌, ◌-ℤ◌, length};
ghost use Rattle.layout.specs.Layout.{width, place_limit, piece_limit, coords_from, status_of};
ghost use Rattle.text.specs.Print.{Wrote};
ghost use Rattle.whole.specs.Whole.{signed_whole};
ghost use Rattle.page.specs.Page.{row_at, held_rows, all_printable, lines_of, total_of};

use crate::lines::write_line;
use base::floats::abs;
use layout::left::pieces;
use layout::offsets::PLACES;
use readings::places::Places;
use readings::sums::place_mass;
use whole::rounding::{Whole, rounded};

// Whether place i is empty or its mass can be printed.
#[tactic(auto, using(crate::proofs::Rows::none_printable, crate::proofs::Rows::one_printable))]
fn place_printable(places: Places, i: usize) -> bool
    requires { i < place_limit }
    ensures { result ≡ all_printable (row_at places.entry.floats.now i (status_of width places.entry.words.now i)) }
{
    places.status_at(i) == 0 || abs(places.mass_with(i, 0.0)) <= 1e15
}

// Whether the masses of all filled places can be printed.
#[tactic(auto, unfolding(crate::specs::Page::held_rows), using(crate::specs::PageLaws::printable_append))]
pub fn all_printable(places: Places) -> bool
    ensures { result ≡ all_printable (held_rows width places.entry.floats.now places.entry.words.now place_limit) }
{
    let mut good = true;
    for i in 0..PLACES {
        good &= place_printable(places, i);
    }
    good
}

// How far a page is written, and the sums of its masses above and below zero. The two sums are kept apart since a mass
// comes, and the total is printed, as a sign and a magnitude: a signed sum would be turned to and fro.
#[derive(Clone, Copy)]
pub struct Sums {
    pub at: usize,
    pub plus: u64,
    pub less: u64,
}

// The sums with a mass more, the page written up to `at`.
#[tactic(auto, using(crate::specs::PageLaws::add_plus, crate::specs::PageLaws::add_less))]
fn add(s: Sums, at: usize, v: Whole) -> Sums
    requires { (v.size ≤ 1000000000000000) × (s.plus ≤ 31000000000000000) × (s.less ≤ 31000000000000000) }
    ensures { (result.at ≡ at) × (pos result.plus -ℤ pos result.less
        ≡ (pos s.plus -ℤ pos s.less) +ℤ signed_whole v.minus v.size) ×
        (result.plus ≤ s.plus + 1000000000000000) × (result.less ≤ s.less + 1000000000000000) }
{
    let plus = s.plus;
    let less = s.less;
    if v.minus {
        return Sums {
            at,
            plus,
            less: less + v.size,
        };
    }
    Sums {
        at,
        plus: plus + v.size,
        less,
    }
}

// The total.
#[tactic(auto, using(crate::specs::PageLaws::plus_over, crate::specs::PageLaws::less_over))]
pub fn total(plus: u64, less: u64) -> Whole
    ensures { (signed_whole result.minus result.size ≡ pos plus -ℤ pos less) × (result.size ≤ plus + less) }
{
    if plus < less {
        return Whole {
            minus: true,
            size: less - plus,
        };
    }
    Whole {
        minus: false,
        size: plus - less,
    }
}

// The line of place i, if it is filled. The status says how many pieces it has, so that no words are needed.
pub fn place_line(out: &mut [u8], floats: &[f64], i: usize, status: u32, s: Sums) -> Sums
    requires place { (coords_from ≤ length floats.now) × (i < place_limit) × (status - 1 ≤ piece_limit) }
    requires printable { all_printable (row_at floats.now i status) ≡ true }
    requires room { s.at + 65 * length (row_at floats.now i status) ≤ length out.old }
    requires sums { (s.plus ≤ 31000000000000000) × (s.less ≤ 31000000000000000) }
    ensures at_value { let row = row_at floats.now i status in
        (result.at ≡ s.at + 65 * length row) × Wrote out.old s.at (lines_of row) result.at out.new }
    ensures less_value { let row = row_at floats.now i status in
        (pos result.plus -ℤ pos result.less ≡ (pos s.plus -ℤ pos s.less) +ℤ total_of row) ×
        (result.plus ≤ s.plus + 1000000000000000) × (result.less ≤ s.less + 1000000000000000) }
{
    if status == 0 {
        return s;
    }
    let count = pieces(status);
    let v = rounded(place_mass(floats, i, count, 0.0));
    let at = write_line(out, s.at, i as u64, count as u64, v);
    add(s, at, v)
}
