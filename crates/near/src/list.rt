// Of up to 256 faces, those that have a corner near a range of numbers: first the blocks of 8 faces that have one,
// then the faces of these blocks. Each is put on its list and counts where it is near, so that no branch depends on it:
// in a mesh without order the processor would guess such a branch wrong time and again. The corners are a slice and no
// `Corners`: whether one is in a range can be asked of any word.
// Internal: a function with a `requires` is called by proved code alone.
ghost use Rattle.std.specs.Prelude.{◌≡◌, ℕ, ◌+◌, ◌*◌, ◌<◌, ◌≤◌, false, length};
ghost use Rattle.near.specs.Near.{NoneWithin, Listed};

use crate::spans::CornerRange;

// Whether one of the n corners from i on is in the range. The difference from the first wraps for a lesser corner, so
// that one comparison is enough; all corners are looked at, so that the processor compares several at once.
fn any_within(corners: &[u32], i: usize, n: usize, range: CornerRange) -> bool
    requires { i + n ≤ length corners.now }
    ensures { result ≡ false → NoneWithin corners.now range.first range.last i (i + n) }
{
    let width = range.last.wrapping_sub(range.first);
    let mut any = false;
    for k in &corners[i..i + n] {
        any = any | (k.wrapping_sub(range.first) <= width);
    }
    any
}

// Of so many blocks of SIZE faces, those that have a corner in the range, added to a list of m by their first faces;
// answers how many it then has. The m stands beside the list, since `Listed` speaks of the first m words of a list that
// is still written.
#[tactic(auto, using(crate::specs::NearLaws::block_within))]
fn list_blocks<const SIZE: usize>(
    corners: &[u32],
    from: usize,
    blocks: usize,
    range: CornerRange,
    list: &mut [usize],
    m: usize,
) -> usize
    requires { (SIZE ≤ 8) × (m + blocks ≤ length list.old) × (blocks ≤ 256)
        × (3 * (from + SIZE * blocks) ≤ length corners.now) × (length corners.now ≤ 6291456) }
    ensures { (result ≤ m + blocks) × ((b : ℕ)
        → Listed corners.now range.first range.last SIZE b from list.old m
        → Listed corners.now range.first range.last SIZE b (from + SIZE * blocks) list.new result) }
{
    let mut n = m;
    for k in 0..blocks {
        let face = from + SIZE * k;
        list[n] = face;
        n += usize::from(any_within(corners, 3 * face, 3 * SIZE, range));
    }
    n
}

// Of up to 256 faces, those that have a corner in the range, listed; answers how many these are. The blocks are gone
// through by index, since `Listed` speaks of the first words of the whole list, not of a cut of it.
pub fn list_near(
    corners: &[u32],
    from: usize,
    faces: usize,
    range: CornerRange,
    list: &mut [usize],
) -> usize
    requires { (faces ≤ 256) × (faces ≤ length list.old) × (3 * (from + faces) ≤ length corners.now)
        × (length corners.now ≤ 6291456) }
    ensures { (result ≤ faces)
        × Listed corners.now range.first range.last 1 from (from + faces) list.new result }
{
    let mut blocks = [0usize; 32];
    let count = list_blocks::<8>(corners, from, faces / 8, range, &mut blocks, 0);
    let mut n: usize = 0;
    for i in 0..count {
        n = list_blocks::<1>(corners, blocks[i], 8, range, list, n);
    }
    list_blocks::<1>(corners, from + faces / 8 * 8, faces % 8, range, list, n)
}
