// Marks of the vertices that a corner names, a digit each, and how many are marked before each word.
// Internal: a function with a `requires` is called by proved code alone.
ghost use Rattle.std.specs.Prelude.{◌≡◌, [], ℕ, ◌+◌, ◌*◌, ◌/◌, ◌%◌, ◌^◌, ◌≤◌, ◌<◌, length, get_or};
ghost use Rattle.std.specs.Int.Bits.{bit_or};
ghost use Rattle.std.specs.Int.Count.{ones};
ghost use Rattle.mesh.specs.Corners.{Below};
ghost use Rattle.squeeze.specs.Marks.{Marked, Ranked, number_of};

// A word with digit b set.
#[tactic(auto, using(crate::specs::MarkLaws::one_shifted))]
fn with_digit(x: u32, b: u32) -> u32
    requires { b < 32 }
    ensures { result ≡ bit_or x (2 ^ b) }
{
    x | (1 << b)
}

// The set digits of a word below digit b.
#[tactic(auto, using(crate::specs::MarkLaws::digits))]
fn count_below(x: u32, b: u32) -> u32
    requires { b < 32 }
    ensures { (result ≡ ones (x % 2 ^ b)) × (result ≤ 32) }
{
    (x & ((1 << b) - 1)).count_ones()
}

// Marks every vertex that a corner names. By index, since must-fail/every_second_corner.edit takes another corner at
// the same turn, and over the elements no other could be named there.
pub fn mark(marks: &mut [u32; 32768], corners: &[u32])
    requires fact_1 { Marked [] marks.old }
    requires fact_2 { Below 1048576 corners.now }
    ensures { Marked corners.now marks.new }
{
    for i in 0..corners.len() {
        let k = corners[i];
        let j = (k / 32) as usize;
        marks[j] = with_digit(marks[j], k % 32);
    }
}

// The marks before each word, for as many words as there are ranks. By index: with `zip` over `iter_mut` an invariant
// would speak of the pairs handed out, where `Ranked` speaks of the words by their places.
#[tactic(auto, unfolding(crate::specs::Marks::ones_to), using(crate::specs::MarkLaws::ranks))]
pub fn sum(ranks: &mut [u32], marks: &[u32; 32768])
    requires { length ranks.old ≤ 32768 }
    ensures { Ranked marks.now ranks.new (length ranks.old) }
{
    let mut total: u32 = 0;
    for j in 0..ranks.len() {
        ranks[j] = total;
        total += marks[j].count_ones();
    }
}

// The new number of vertex k.
pub fn number(marks: &[u32; 32768], ranks: &[u32], k: u32) -> u32
    requires { (k < 1048576) × (k / 32 < length ranks.now) × (get_or ranks.now (k / 32) 0 ≤ 1048576) }
    ensures { result ≡ number_of marks.now ranks.now k }
{
    let j = (k / 32) as usize;
    ranks[j] + count_below(marks[j], k % 32)
}

// Digit i % 32 of word i / 32: 1 where vertex i is marked.
pub fn marked(marks: &[u32; 32768], i: usize) -> usize
    requires { i < 1048576 }
    ensures { result ≡ get_or marks.now (i / 32) 0 / 2 ^ (i % 32) % 2 }
{
    let j = i / 32;
    let b = (i % 32) as u32;
    ((marks[j] >> b) % 2) as usize
}
