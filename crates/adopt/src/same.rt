// Whether two stores' runs hold the same body. Both runs are read whole, so that the loops run at the memory's speed.
// Internal: a function with a `requires` is called by proved code alone.
ghost use Rattle.std.specs.Prelude.{◌≡◌, ◌+◌, ◌*◌, ◌≤◌, Bool, eqb, length};
ghost use Rattle.layout.specs.Layout.{width, coords_from, corners_from, verts_of, faces_of};
ghost use Rattle.adopt.specs.Same.{same_float, same_by};
ghost use Rattle.adopt.specs.Adopt.{same_body_lem};

use base::floats::to_pattern;
use layout::offsets::{COORDS, CORNERS};

// How two words of a run are compared.
trait Same: Copy {
    ghost same: { Self → Self → Bool };

    fn same(self, other: Self) -> bool
        ensures { result ≡ same self other };
}

// By their bits, and every NaN is one.
impl Same for f64 {
    ghost same = { same_float };

    #[tactic(auto, using(crate::specs::SameLaws::same_bits))]
    fn same(self, other: f64) -> bool {
        to_pattern(self) == to_pattern(other)
    }
}

impl Same for u32 {
    ghost same = { eqb };

    fn same(self, other: u32) -> bool {
        self == other
    }
}

// Whether two runs, as long as each other, are the same.
#[tactic(auto, unfolding(crate::specs::Same::same_by), using(crate::specs::SameLaws::same_all))]
fn all_same<T: Same>(a: &[T], b: &[T]) -> bool
    requires { length a.now ≡ length b.now }
    ensures { result ≡ same_by T.same a.now b.now }
{
    let mut all = true;
    for (i, x) in a.iter().enumerate() {
        all &= x.same(b[i]);
    }
    all
}

// Whether two stores, in runs that are long enough, are of the same body.
#[tactic(auto, unfolding(crate::specs::Adopt::same_body_lem))]
pub fn same_body(floats: &[f64], words: &[u32], other_floats: &[f64], other_words: &[u32]) -> bool
    requires { (coords_from + 3 * verts_of words.now ≤ length floats.now)
        × (corners_from width + 3 * faces_of words.now ≤ length words.now)
        × (coords_from + 3 * verts_of other_words.now ≤ length other_floats.now)
        × (corners_from width + 3 * faces_of other_words.now ≤ length other_words.now) }
    ensures { result ≡ same_body_lem width floats.now words.now other_floats.now
        other_words.now }
{
    if !floats[0].same(other_floats[0]) {
        return false;
    }
    if words[0] != other_words[0] || words[1] != other_words[1] {
        return false;
    }
    let end = COORDS + 3 * (words[0] as usize);
    if !all_same(&floats[COORDS..end], &other_floats[COORDS..end]) {
        return false;
    }
    let last = CORNERS + 3 * (words[1] as usize);
    all_same(&words[CORNERS..last], &other_words[CORNERS..last])
}
