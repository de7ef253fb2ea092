// The program `bench` but for reading and writing: a byte of its input at a time. What it holds is lent.
// Internal: an opening under way is asked to be within the program's counts.
#![tactic(auto)]

ghost use Rattle.std.specs.Prelude.{◌≡◌, ◌≤◌, length};
ghost use Rattle.session.specs.Session.{Small, session, idle};
ghost use Rattle.program.specs.Bytes.{Held, Feeds, line_in, end_line, line_with, count_with, feed_byte, feed_end};

use forms::line::Line;
use forms::read::parse_line;
use session::opening::{Opening, idle};
use session::respond::respond;

// An opening under way, the bytes of the line so far (257 where they are too many: what is held, `Held`, has the count as
// a number, and the theorem `prints` speaks of it), and the length of what was written.
#[derive(Clone, Copy)]
pub struct State {
    pub opening: Opening,
    pub count: usize,
    pub wrote: usize,
}

// Before the first byte.
pub fn start() -> State
    ensures { (result.opening ≡ idle) × (result.count ≡ 0) × (result.wrote ≡ 0) }
{
    State {
        opening: idle(),
        count: 0,
        wrote: 0,
    }
}

// What the line in the first `count` bytes means; one of more than 256 means nothing.
fn line_in(line: &[u8; 256], count: usize) -> Option<Line>
    ensures { result ≡ line_in line.now count }
{
    if count > 256 {
        return None;
    }
    parse_line(&line[..count])
}

// The end of a line.
fn end_line(
    st: State,
    line: &[u8; 256],
    floats: &mut [f64],
    words: &mut [u32],
    coords: &mut [f64; 1500],
    corners: &mut [u32; 3000],
    out: &mut [u8; 512],
) -> State
    requires { Small st.opening }
    ensures small { Small result.opening × (result.wrote ≤ 256) }
    ensures feeds { Feeds end_line
        (session st.opening floats.old words.old coords.old corners.old)
        line.now st.count
        (session result.opening floats.new words.new coords.new corners.new)
        line.now result.count
        out.old result.wrote out.new }
{
    let l = line_in(line, st.count);
    let s = respond(st.opening, l, floats, words, coords, corners, out);
    State {
        opening: s.opening,
        count: 0,
        wrote: s.wrote,
    }
}

// A byte more of a line.
fn keep(st: State, b: u8, line: &mut [u8; 256]) -> State
    ensures opening_value { (result.opening ≡ st.opening) × (result.wrote ≡ 0) }
    ensures line_after { (line.new ≡ line_with line.old st.count b)
        × (result.count ≡ count_with st.count) }
{
    let n = st.count;
    if n >= 256 {
        return State {
            count: 257,
            wrote: 0,
            ..st
        };
    }
    line[n] = b;
    State {
        count: n + 1,
        wrote: 0,
        ..st
    }
}

// A byte of the input.
pub fn feed(
    st: State,
    b: u8,
    line: &mut [u8; 256],
    floats: &mut [f64],
    words: &mut [u32],
    coords: &mut [f64; 1500],
    corners: &mut [u32; 3000],
    out: &mut [u8; 512],
) -> State
    requires { Small st.opening }
    ensures small { Small result.opening × (result.wrote ≤ 256) }
    ensures feeds { Feeds (λ (h : Held). feed_byte h b)
        (session st.opening floats.old words.old coords.old corners.old)
        line.old st.count
        (session result.opening floats.new words.new coords.new corners.new)
        line.new result.count
        out.old result.wrote out.new }
{
    if b == 10 {
        return end_line(st, line, floats, words, coords, corners, out);
    }
    keep(st, b, line)
}

// The end of the input: a last line without a newline is a line.
pub fn end(
    st: State,
    line: &[u8; 256],
    floats: &mut [f64],
    words: &mut [u32],
    coords: &mut [f64; 1500],
    corners: &mut [u32; 3000],
    out: &mut [u8; 512],
) -> State
    requires { Small st.opening }
    ensures small { Small result.opening × (result.wrote ≤ 256) }
    ensures feeds { Feeds feed_end
        (session st.opening floats.old words.old coords.old corners.old)
        line.now st.count
        (session result.opening floats.new words.new coords.new corners.new)
        line.now result.count
        out.old result.wrote out.new }
{
    if st.count == 0 {
        return State { wrote: 0, ..st };
    }
    end_line(st, line, floats, words, coords, corners, out)
}
