// The numbers of directed edges, and those of a face put into words. The count n stands beside the words, since `Put`
// and `Faced` speak of the first n of a run that is still written; low and end are two numbers and no struct, since
// `put_at` takes them of half the size of those that `put` compares with.
// Internal: a function with a `requires` is called by proved code alone.
ghost use Rattle.std.specs.Prelude.{◌≡◌, ◌+◌, ◌*◌, ◌<◌, ◌≤◌, length, slice_index};
ghost use Rattle.edges.specs.Numbers.{code, Put, Faced};

// The number of the edge from a to b.
#[tactic(auto, using(crate::specs::NumberLaws::code_of))]
fn code(a: u32, b: u32) -> u64
    ensures { result ≡ code a b }
{
    let lesser = u64::from(a.min(b));
    let greater = u64::from(a.max(b));
    2 * (lesser * 1_048_576 + greater) + u64::from(a >= b)
}

// Word n becomes x, and counts where x is one of low .. end - 1.
fn put(words: &mut [u64], n: usize, x: u64, low: u64, end: u64) -> usize
    requires { n < length words.old }
    ensures { Put low end x words.old n words.new result }
{
    words[n] = x;
    n + usize::from((low <= x) & (x < end))
}

// The numbers of a face, put one after the other.
fn put_face(words: &mut [u64], n: usize, x: u32, y: u32, z: u32, low: u64, end: u64) -> usize
    requires { n + 3 ≤ length words.old }
    ensures { Faced low end x y z words.old n words.new result }
{
    let a = put(words, n, code(x, y), low, end);
    let b = put(words, a, code(y, z), low, end);
    put(words, b, code(z, x), low, end)
}

// The numbers 2k or 2k + 1 of a face, with k one of low .. end - 1, put after n words; answers how many words count.
// A slice and no `Corners`: an edge has its number whatever its corners are.
pub fn put_at(
    corners: &[u32],
    face: usize,
    words: &mut [u64],
    n: usize,
    low: u64,
    end: u64,
) -> usize
    requires { (3 * face + 3 ≤ length corners.now) × (length corners.now ≤ 6291456)
        × (n + 3 ≤ length words.old) × (low ≤ 1099511627776) × (end ≤ 1099511627776) }
    ensures { Faced (2 * low) (2 * end) (slice_index corners.now (3 * face))
        (slice_index corners.now (3 * face + 1)) (slice_index corners.now (3 * face + 2))
        words.old n words.new result }
{
    let i = 3 * face;
    let x = corners[i];
    let y = corners[i + 1];
    let z = corners[i + 2];
    put_face(words, n, x, y, z, 2 * low, 2 * end)
}
