// Which corners the faces of a stretch have, told in one word: a span. A pass asks it first, and passes over a stretch
// that has no corner near its range without reading a corner of it. In a mesh whose neighbours have numbers near each
// other that is nearly all of the mesh; in a mesh without order it is nothing, and costs as little. A span is no struct
// of two halves: `span` alone makes it and `misses` alone reads it, and `Spanned` speaks of one list of words.
// Internal: a function with a `requires` is called by proved code alone.
ghost use Rattle.std.specs.Prelude.{◌≡◌, ℕ, ◌≤◌, true, false, length};
ghost use Rattle.sort.specs.Order.{All};
ghost use Rattle.near.specs.Near.{inside, Spans, Spanned};

use mesh::corners::Corners;

// The corners first .. last: those that the numbers of a range have as their lesser ones.
#[derive(Clone, Copy)]
pub struct CornerRange {
    pub first: u32,
    pub last: u32,
}

impl CornerRange {
    // Whether no corner within a span is one of these; a corner near to them by less than 16 may be taken for one.
    #[tactic(auto, using(crate::specs::NearLaws::misses_span))]
    pub fn misses(self, span: u32) -> bool
        ensures { result ≡ true → (x : ℕ) → Spans span x → inside self.first self.last x ≡ false }
    {
        (span / 65536 < self.first / 16) | (self.last / 16 < span % 65536)
    }
}

// The span of the corners from .. to - 1.
fn span(corners: Corners, from: usize, to: usize) -> u32
    requires { (from ≤ to) × (to ≤ length corners.list.now) }
    ensures { All (Spans result) corners.entry.list.now from to }
{
    let mut least: u32 = 1_048_575;
    let mut greatest: u32 = 0;
    for k in &corners.list[from..to] {
        least = least.min(*k);
        greatest = greatest.max(*k);
    }
    greatest / 16 * 65536 + least / 16
}

// Writes the spans of all stretches. By the stretches' numbers, since `Spanned` finds a corner's span by the corner's
// place in the whole list.
pub fn summarize(corners: Corners, spans: &mut [u32; 2049])
    ensures { Spanned corners.entry.list.now spans.new (length corners.entry.list.now) }
{
    let n = corners.list.len();
    for k in 0..n.div_ceil(3072) {
        let i = 3072 * k;
        spans[k] = span(corners, i, n.min(i + 3072));
    }
}

// The faces of a mesh, with the spans of their stretches of 1,024. The words of the spans are lent: a value that held
// them would be made in one place and moved to another, and a check of a closed mesh, which has few bytes of its stack
// left over, would have the 8,196 bytes twice.
#[derive(Clone, Copy)]
pub struct Faces<'a> {
    pub corners: Corners<'a>,
    pub spans: &'a [u32; 2049],
    pub ghost spanned: { Spanned corners.list.now spans.now (length corners.list.now) },
}

impl<'a> Faces<'a> {
    // The faces that have these corners, with their spans in the words that are lent.
    pub fn new(corners: Corners<'a>, spans: &'a mut [u32; 2049]) -> Self
        ensures { result.corners.list.now ≡ corners.entry.list.now }
    {
        summarize(corners, spans);
        Faces { corners, spans }
    }
}
