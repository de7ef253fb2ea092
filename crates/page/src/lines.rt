// The page's lines, written at a position of a run; each function answers the position after what it wrote, and leaves
// all other bytes as they were. The run and the position stay two parameters, as in text: `Wrote` says of both, in one
// term, what a struct's clauses would say of its fields.
// Internal: a function with a `requires` is called by proved code alone.
ghost use Rattle.std.specs.Prelude.{◌≡◌, ◌++◌, ◌+◌, ◌≤◌, ◌<◌, length};
ghost use Rattle.text.specs.Print.{Wrote, decimal_length, decimal_text};
ghost use Rattle.whole.specs.Whole.{signed_whole};
ghost use Rattle.page.specs.Page.{spaces, right, whole_text, ending, place_line, total_line};

use layout::runs::fill;
use text::write::{decimal_length, write_bytes, write_digits};
use whole::rounding::Whole;

// n spaces.
fn write_spaces(out: &mut [u8], at: usize, n: usize) -> usize
    requires { at + n ≤ length out.old }
    ensures { (result ≡ at + n) × Wrote out.old at (spaces n) result out.new }
{
    fill(out, at, n, b' ');
    at + n
}

// A sign, which may be empty, and a number, right-aligned in `wide` columns.
fn write_right(out: &mut [u8], at: usize, wide: usize, sign: &[u8], n: u64) -> usize
    requires { (at + wide ≤ length out.old) × (length sign.now + decimal_length n ≤ wide) }
    ensures { (result ≡ at + wide) × Wrote out.old at (right wide (sign.now ++ decimal_text n)) result out.new }
{
    let k = decimal_length(n);
    let a = write_spaces(out, at, wide - (sign.len() + k));
    let b = write_bytes(out, a, sign);
    write_digits(out, b, k, n)
}

// A whole number, right-aligned in 20 columns. (The bound stands here and not in `Whole`: a line has room for it,
// while `rounded` makes sizes up to 10^15, and `total` one as great as the sum of any two.)
#[tactic(auto, using(crate::proofs::Writes::mass_digits, crate::proofs::Writes::whole_below, crate::proofs::Writes::whole_plain))]
fn write_whole(out: &mut [u8], at: usize, v: Whole) -> usize
    requires { (at + 20 ≤ length out.old) × (v.size < 100000000000000000) }
    ensures { (result ≡ at + 20) × Wrote out.old at
        (right 20 (whole_text (signed_whole v.minus v.size))) result out.new }
{
    let size = v.size;
    let below = v.minus & (size > 0);
    if below {
        return write_right(out, at, 20, b"-", size);
    }
    write_right(out, at, 20, b"", size)
}

// Columns 6 to 64 of a line, and its newline.
#[tactic(auto, unfolding(crate::specs::Page::ending), using(text::specs::WriteLaws::then))]
fn write_ending(out: &mut [u8], at: usize, v: Whole) -> usize
    requires { (at + 60 ≤ length out.old) × (v.size < 100000000000000000) }
    ensures { (result ≡ at + 60) × Wrote out.old at (ending (signed_whole v.minus v.size)) result
        out.new }
{
    let a = write_spaces(out, at, 39);
    let b = write_whole(out, a, v);
    write_bytes(out, b, b"\n")
}

// A place's line.
#[tactic(auto, unfolding(crate::specs::Page::place_line), using(crate::proofs::Writes::two_digits))]
pub fn write_line(out: &mut [u8], at: usize, place: u64, pieces: u64, v: Whole) -> usize
    requires { (at + 65 ≤ length out.old) × (place < 100) × (pieces < 100) × (v.size < 100000000000000000) }
    ensures { (result ≡ at + 65) × Wrote out.old at
        (place_line place pieces (signed_whole v.minus v.size)) result out.new }
{
    let a = write_right(out, at, 2, b"", place);
    let b = write_bytes(out, a, b" ");
    let c = write_right(out, b, 2, b"", pieces);
    write_ending(out, c, v)
}

// The last line.
#[tactic(auto, unfolding(crate::specs::Page::total_line), using(text::specs::WriteLaws::then))]
pub fn write_total(out: &mut [u8], at: usize, v: Whole) -> usize
    requires { (at + 65 ≤ length out.old) × (v.size < 100000000000000000) }
    ensures { (result ≡ at + 65) × Wrote out.old at (total_line (signed_whole v.minus v.size)) result
        out.new }
{
    let a = write_bytes(out, at, b"TOTAL");
    write_ending(out, a, v)
}
