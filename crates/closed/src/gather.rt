// The numbers of a range, gathered from the faces into a batch of words.
// Internal: a function with a `requires` is called by proved code alone.
ghost use Rattle.std.specs.Prelude.{◌≡◌, List, ℕ, ◌+◌, ◌*◌, ◌%◌, ◌≤◌, ◌<◌, length, get_or};
ghost use Rattle.closed.specs.Held.{Cut, Sound, Gathered, Halved};

use edges::numbers::put_at;
use edges::ranges::Ends;
use mesh::corners::Corners;
use near::list::list_near;
use near::spans::{CornerRange, Faces};
use sort::arrange::order;

// A range as far as it is gathered: how many words there are, which are all its numbers, and where it ends. The words
// and the range's first number stand beside it: a batch that held them would be moved about, and the stack has no room
// for two.
#[derive(Clone, Copy)]
pub struct Batch {
    pub count: usize,
    pub end: u64,
}

// How many of the first n words, which are in order, are below `end`. The n stands beside the words, and they are gone
// through by index, since `Cut` speaks of the first n of all.
fn below(words: &[u64], n: usize, end: u64) -> usize
    requires { n ≤ length words.now }
    ensures { Cut end words.now n result }
{
    for i in (0..n).rev() {
        if words[i] < end {
            return i + 1;
        }
    }
    0
}

// A full batch, cut down to the lesser half of its words; the end that it had is listed.
fn halve(low: u64, batch: Batch, words: &mut [u64], ends: &mut Ends) -> Batch
    requires fact_1 { 4 ≤ batch.count }
    requires fact_2 { Sound low batch words.old }
    ensures { Halved low batch words.old result words.new }
{
    let n = batch.count;
    order(words, n, 2 * low, 2 * batch.end);
    let end = words[n / 2] / 2;
    let count = below(words, n / 2, 2 * end);
    ends.push(batch.end);
    Batch { count, end }
}

// A batch with room for the numbers of so many faces more: the batch, or where that has no room its lesser half.
fn make_room(faces: usize, low: u64, batch: Batch, words: &mut [u64], ends: &mut Ends) -> Batch
    requires fact_1 { faces ≤ 256 }
    requires fact_2 { Sound low batch words.old }
    ensures { (result.count + 3 * faces ≤ 61440) × (result.end ≤ batch.end)
        × ((ks : List ℕ) (i : ℕ) → Gathered ks low batch words.old i
        → Gathered ks low result words.new i) }
{
    if batch.count + 3 * faces <= 61440 {
        return batch;
    }
    halve(low, batch, words, ends)
}

// The numbers of up to 256 faces, added to a batch. Where the span of their stretch misses the batch's range, none of
// them is looked at. Else the faces that have a corner near the range are listed first, and the others passed over. The
// list is gone through by index, since `Listed` speaks of the first words of the whole list, not of a cut of it.
fn take_faces(
    faces: &Faces,
    from: usize,
    count: usize,
    low: u64,
    batch: Batch,
    words: &mut [u64],
    ends: &mut Ends,
    list: &mut [usize; 256],
) -> Batch
    requires fact_1 { (count ≤ 256)
        × (3 * (from + count) ≤ length faces.now.corners.list.now) × (from % 256 ≡ 0) }
    requires fact_2 { Gathered faces.now.corners.list.now low batch words.old (3 * from) }
    ensures { (result.end ≤ batch.end)
        × Gathered faces.now.corners.list.now low result words.new (3 * (from + count)) }
{
    let range = CornerRange {
        first: (low / 1_048_576) as u32,
        last: (batch.end / 1_048_576) as u32,
    };
    if range.misses(faces.spans[from / 1024]) {
        return batch;
    }
    let near = list_near(faces.corners.list, from, count, range, list);
    let room = make_room(near, low, batch, words, ends);
    let mut n = room.count;
    for k in 0..near {
        n = put_at(faces.corners.list, list[k], words, n, low, room.end);
    }
    Batch {
        count: n,
        end: room.end,
    }
}

// Every number 2k or 2k + 1 of the faces, with k one of low .. end - 1, added to an empty batch; where these are too
// many, the end is lowered.
pub fn gather_by_spans(
    faces: &Faces,
    low: u64,
    empty: Batch,
    words: &mut [u64],
    ends: &mut Ends,
) -> Batch
    requires { Gathered faces.now.corners.list.now low empty words.old 0 }
    ensures { (result.end ≤ empty.end)
        × Gathered faces.now.corners.list.now low result words.new (length faces.now.corners.list.now) }
{
    let n = faces.corners.face_count();
    let mut list = [0usize; 256];
    let mut batch = empty;
    for k in 0..n / 256 {
        batch = take_faces(faces, 256 * k, 256, low, batch, words, ends, &mut list);
    }
    take_faces(
        faces,
        n / 256 * 256,
        n % 256,
        low,
        batch,
        words,
        ends,
        &mut list,
    )
}

// The same, where the spans are not made yet. A sweep makes them once for all of its ranges and does not call this: to
// make them takes a pass over the faces, and they take 8,196 bytes of local memory.
pub fn gather(corners: Corners, low: u64, empty: Batch, words: &mut [u64], ends: &mut Ends) -> Batch
    requires { Gathered corners.list.now low empty words.old 0 }
    ensures { (result.end ≤ empty.end)
        × Gathered corners.entry.list.now low result words.new (length corners.entry.list.now) }
{
    let mut spans = [0u32; 2049];
    let faces = Faces::new(corners, &mut spans);
    gather_by_spans(&faces, low, empty, words, ends)
}
