// The program `bench`: 01's lines on standard input, an answer a line on standard output.
#![tactic(auto)]

ghost use Rattle.std.specs.Prelude.{◌≡◌, ◌≤◌, length, IfSome};
ghost use Rattle.session.specs.Session.{Small, session, idle};
ghost use Rattle.program.specs.Bytes.{held_with, held_after};
ghost use Rattle.program.specs.Bench.{held_at_first, Reached};

use program::State;
use std::io::{self, ErrorKind, Read};
use std::thread;
use std::time::{Clock, Duration};

// Whether a call that failed is to be made again: a signal interrupted it, or its file is one that is never
// waited for. The library has no call that waits for such a file, so others run first.
fn again(rt: &impl Clock, error: &io::Error) -> bool {
    let kind = error.kind();
    if kind == ErrorKind::WouldBlock {
        thread::sleep(rt, Duration::ZERO);
        return true;
    }
    kind == ErrorKind::Interrupted
}

// Whether a read that answered `got` was the last: the input ended or cannot be read.
fn ended(rt: &impl Clock, got: &io::Result<usize>) -> bool {
    match got {
        Ok(n) => *n == 0,
        Err(error) => !again(rt, error),
    }
}

// Writes some of these bytes, and answers how many; 0 where none can be written.
fn write_some(rt: &(impl Print + Clock), bytes: &[u8]) -> usize
    ensures { result ≤ length bytes.now }
{
    // A loop without end, counted so that it is proved to end.
    for _ in 0..u64::MAX {
        match rt.write_some(bytes) {
            Ok(put) => return put,
            Err(error) => {
                if !again(rt, &error) {
                    return 0;
                }
            }
        }
    }
    0
}

// Writes the first `n` bytes of `out`; false where they cannot be written. (A `while`, since a write answers how much
// it wrote.)
fn say(rt: &(impl Print + Clock), out: &[u8], n: usize) -> bool {
    if n > out.len() {
        return false;
    }
    let mut left = &out[..n];
    while !left.is_empty() {
        let more = write_some(rt, left);
        if more == 0 {
            return false;
        }
        left = &left[more..];
    }
    true
}

// The first `n` bytes of a chunk, each answer written where its line ends. After an answer that was not written none
// is, and no state is answered. What is held is what some bytes left of the store of zeros, and stays so.
fn feed_chunk(
    rt: &(impl Print + Clock),
    st: State,
    chunk: &[u8; 4096],
    n: usize,
    line: &mut [u8; 256],
    floats: &mut [f64; 3261],
    words: &mut [u32; 3130],
    coords: &mut [f64; 1500],
    corners: &mut [u32; 3000],
    out: &mut [u8; 512],
) -> Option<State>
    requires small_1 { Small st.opening }
    requires small_2 { n ≤ 4096 }
    requires reached { Reached
        (held_with (session st.opening floats.old words.old coords.old corners.old) line.old
        st.count) }
    ensures { IfSome result (λ state. Small state.opening
        × (held_with (session state.opening floats.new words.new coords.new corners.new) line.new
        state.count
        ≡ held_after chunk.now n (held_with
        (session st.opening floats.old words.old coords.old corners.old)
        line.old st.count))) }
{
    let mut state = st;
    for i in 0..n {
        state = program::feed(state, chunk[i], line, floats, words, coords, corners, out);
        if !say(rt, out, state.wrote) {
            return None;
        }
    }
    Some(state)
}

// The end of the input, and its answer if it has one.
fn finish(
    rt: &(impl Print + Clock),
    st: State,
    line: &[u8; 256],
    floats: &mut [f64; 3261],
    words: &mut [u32; 3130],
    coords: &mut [f64; 1500],
    corners: &mut [u32; 3000],
    out: &mut [u8; 512],
)
    requires small { Small st.opening }
    requires reached { Reached
        (held_with (session st.opening floats.old words.old coords.old corners.old) line.now
        st.count) }
{
    let last = program::end(st, line, floats, words, coords, corners, out);
    say(rt, out, last.wrote);
}

// Reads the input to its end and answers its lines, from the store of zeros on. After an answer that was not written
// nothing is read.
fn serve(
    rt: &(impl Input + Print + Clock),
    line: &mut [u8; 256],
    floats: &mut [f64; 3261],
    words: &mut [u32; 3130],
    coords: &mut [f64; 1500],
    corners: &mut [u32; 3000],
    out: &mut [u8; 512],
)
    requires { held_with (session idle floats.old words.old coords.old corners.old) line.old 0
        ≡ held_at_first }
{
    let mut chunk = [0u8; 4096];
    let mut input = rt.reader();
    let mut st = program::start();
    // A loop without end, counted as in `write_some`.
    for turn in 0..u64::MAX {
        let got = input.read(&mut chunk);
        if ended(rt, &got) {
            break;
        }
        let n = got.unwrap_or(0);
        let fed = feed_chunk(rt, st, &chunk, n, line, floats, words, coords, corners, out);
        let Some(state) = fed else {
            return;
        };
        st = state;
    }
    finish(rt, st, line, floats, words, coords, corners, out);
}

fn main(rt: HostRuntime) {
    let mut line = [0u8; 256];
    let mut floats = [0.0f64; 3261];
    let mut words = [0u32; 3130];
    let mut coords = [0.0f64; 1500];
    let mut corners = [0u32; 3000];
    let mut out = [0u8; 512];
    serve(
        &rt,
        &mut line,
        &mut floats,
        &mut words,
        &mut coords,
        &mut corners,
        &mut out,
    );
}
