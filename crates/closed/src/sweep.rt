// The numbers of all faces, range by range: each range is gathered, put in order and looked through for a number
// without its partner.
//
// How long it takes is no matter of luck. A batch is halved only where the near ones of 256 faces more might not fit,
// and the end that it loses is listed: so each halving leaves some 30,300 numbers on either side of an end that stays,
// and there are about 208 of them at most, whatever the mesh. With at most 121 ends of lots, or 117 of the sample, that
// makes some 330 passes over the faces at most. A pass reads the stretches whose span meets its range.
//
// Local memory, in bytes: 491,520 of words, 3,080 of ends and 8,196 of spans here, a list of 2,048 in `gather_by_spans`
// and one of 256 in `list_near` are 505,100. A level of the sort takes some 80, and there are at most 42: 3,360. With
// the frames of the functions between, that is well within the 524,288 that the header promises for a call.
// Internal: a function with a `requires` is called by proved code alone.
ghost use Rattle.std.specs.Prelude.{◌≡◌, true, false, ◌+◌, ◌*◌, ◌≤◌, ◌<◌, length, get_or};
ghost use Rattle.sort.specs.Order.{Rising};
ghost use Rattle.closed.specs.Held.{Paired, Unpaired, Matched, Unmatched};

use crate::gather::{Batch, gather_by_spans};
use edges::divide::divide_by_lots;
use mesh::corners::Corners;
use near::spans::Faces;
use sort::arrange::order;

// How many of the n words, which are in order, are whole pairs 2k, 2k + 1 from the first on. The n stands beside the
// words, since `Rising`, `Paired` and `Unpaired` speak of the first n of all. A count and no `Option`: the promise
// names by it the word without a partner.
fn paired(words: &[u64], n: usize) -> usize
    requires fact_1 { n ≤ length words.now }
    requires fact_2 { Rising words.now 0 n }
    ensures { (result ≤ n) × (result ≡ n → Paired words.now n)
        × (result < n → Unpaired words.now n (get_or words.now result 0)) }
{
    for k in 0..n / 2 {
        let i = 2 * k;
        let x = words[i];
        let y = words[i + 1];
        if x % 2 != 0 {
            return i;
        }
        if y != x + 1 {
            return i;
        }
    }
    2 * (n / 2)
}

// Whether of the numbers whose k is below `top` each is there once, with its partner. (A `while`, since a range ends
// where its batch is full.)
pub fn sweep(corners: Corners, top: u64) -> bool
    requires { top ≤ 1099511627776 }
    ensures { (result ≡ true → Matched corners.entry.list.now top)
        × (result ≡ false → Unmatched corners.entry.list.now) }
{
    let mut words = [0u64; 61440];
    let mut spans = [0u32; 2049];
    let faces = Faces::new(corners, &mut spans);
    let mut ends = divide_by_lots(corners, &mut words);
    let mut low: u64 = 0;
    while low < top {
        let empty = Batch {
            count: 0,
            end: ends.next(low, top),
        };
        let batch = gather_by_spans(&faces, low, empty, &mut words, &mut ends);
        let n = batch.count;
        let end = batch.end;
        order(&mut words, n, 2 * low, 2 * end);
        if paired(&words, n) < n {
            return false;
        }
        if end <= low {
            return false;
        }
        low = end;
    }
    true
}
