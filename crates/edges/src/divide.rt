// The ends that a sweep starts with, by which each range is likely to hold about as many numbers as a batch has room
// for. The numbers of some faces are counted in lots, by their lesser corners, and a range is made of as many lots as
// have room. Where few corners have many of the numbers, lots are too coarse: then a sample of the numbers is put in
// order and divided into equal shares.
// Internal: a function with a `requires` is called by proved code alone.
ghost use Rattle.std.specs.Prelude.{◌<◌, ◌≤◌, length};
ghost use Rattle.sort.specs.Order.{Within};

use crate::numbers::put_at;
use crate::ranges::Ends;
use mesh::corners::Corners;
use sort::arrange::order;

// How many words the sweep has for a batch of numbers.
pub const WORDS: usize = 61_440;

// How many lots there are: each is counted in a word.
const LOTS: usize = 32_768;

// The lot of an edge's number: 32 lesser corners have one in common.
fn lot(a: u32, b: u32) -> usize
    requires { (a < 1048576) × (b < 1048576) }
    ensures { result < 32768 }
{
    (a.min(b) / 32) as usize
}

// One more in the lot of an edge. A count may wrap, since nothing is asked of it.
fn add_one(counts: &mut [u64; WORDS], a: u32, b: u32)
    requires { (a < 1048576) × (b < 1048576) }
{
    let at = lot(a, b);
    counts[at] = counts[at].wrapping_add(1);
}

// The numbers of every 5th face, counted in lots; the words are zeros before. By the faces' numbers, since `Below`
// bounds a corner by its place in the whole list: of a face cut out by `chunks_exact` it would have to be proved again.
fn count(corners: Corners, counts: &mut [u64; WORDS]) {
    for face in (0..corners.face_count()).step_by(5) {
        let x = corners.list[3 * face];
        let y = corners.list[3 * face + 1];
        let z = corners.list[3 * face + 2];
        add_one(counts, x, y);
        add_one(counts, y, z);
        add_one(counts, z, x);
    }
}

// Whether some lot has more than an eighth of what a range may have. All are looked at: several at once.
fn uneven(counts: &[u64; WORDS]) -> bool {
    let mut any = false;
    for n in &counts[..LOTS] {
        any = any | (1475 < *n);
    }
    any
}

// The ends of ranges of whole lots, the last first. A range has at most 11,800 of the numbers that were counted, so
// about 59,000 of all.
fn mark_lots(counts: &[u64; WORDS]) -> Ends {
    let mut ends = Ends::new();
    let mut sum: u64 = 0;
    for (lot, n) in counts[..LOTS].iter().enumerate().rev() {
        sum = sum.wrapping_add(*n);
        if 11_800 < sum {
            ends.push((lot as u64 + 1) * 33_554_432);
            sum = *n;
        }
    }
    ends
}

// The numbers of every 103rd face, put into words; answers how many there are. By the faces' numbers, as `put_at`'s
// promise `Faced` has them.
fn sample(corners: &[u32], words: &mut [u64; WORDS]) -> usize
    requires { length corners.now ≤ 6291456 }
    ensures { (result ≤ 61440) × Within 0 2199023255552 words.new result }
{
    let mut n: usize = 0;
    for face in (0..corners.len() / 3).step_by(103) {
        n = put_at(corners, face, words, n, 0, 1_099_511_627_776);
    }
    n
}

// The ends made of every 520th of some words, the last first. A range holds about 53,560 numbers. By index, since the
// words are counted off from the end: `rchunks` would have to leave out its last part.
fn mark(words: &[u64]) -> Ends {
    let mut ends = Ends::new();
    for k in 1..words.len().div_ceil(520) {
        ends.push(words[words.len() - 520 * k] / 2);
    }
    ends
}

// The ends of ranges, where there are more numbers than a batch has room for, by the sample alone. A slice and no
// `Corners`: where nothing is counted in lots, a corner may be any word.
pub fn divide(corners: &[u32], words: &mut [u64; WORDS]) -> Ends
    requires { length corners.now ≤ 6291456 }
{
    if corners.len() <= WORDS {
        return Ends::new();
    }
    let n = sample(corners, words);
    order(words, n, 0, 2_199_023_255_552);
    mark(&words[..n])
}

// The ends of ranges, by the lots where these are not too coarse.
pub fn divide_by_lots(corners: Corners, words: &mut [u64; WORDS]) -> Ends {
    if corners.list.len() <= WORDS {
        return Ends::new();
    }
    count(corners, words);
    if !uneven(words) {
        return mark_lots(words);
    }
    divide(corners.list, words)
}
