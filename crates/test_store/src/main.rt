// Plays one long history of a store on lent runs and writes a line for each call: the call, its answer or 01's number
// of its refusal, and a digest of every word of both runs after it. The calls are the script on standard input, the
// file stdin beside src/, by topics; words written from outside make the store unsound and sound again.
// What it writes is held to the file stdout beside src/, which the proved code did not make: it is what 01's machine
// answers to the same calls over the original's own text with the second transcription of 01's powers, as `cargo run
// --release --bin stored history` in oracle/ writes it. Every number that these calls can give is there but 2, whose
// mesh of 25 MB no program's stack holds; the comparison of the store in oracle/ has it.
#![tactic(auto)]

ghost use Rattle.std.specs.Prelude.{◌≤◌, length, IfOk};

mod body;
mod edits;
mod reads;

use crate::edits::{
    Floats, Words, run_advance, run_clear, run_open, run_put, run_reweigh, run_squeeze, run_write,
};
use crate::reads::{run_density, run_list, run_page, run_report, run_track};
use std::io::{self, Read};
use test_lines::line::say_runs;
use test_lines::script::{Line, convention, line_of, next};

// A call that reads, by the third letter of its name.
fn read(rt: &impl Print, floats: &[f64], words: &[u32], c: Line) -> io::Result<()> {
    let third = c.third;
    match third {
        b'n' => run_density(
            rt,
            floats,
            words,
            convention(c.n2, c.n3, c.x2, c.x3),
            c.layers,
        ),
        b'p' => run_report(
            rt,
            floats,
            words,
            convention(c.n2, c.n3, c.x2, c.x3),
            c.layers,
        ),
        b's' => run_list(
            rt,
            floats,
            words,
            convention(c.n3, c.n4, c.x3, c.x4),
            c.layers,
            c.n1 as usize,
        ),
        b'a' => run_track(
            rt,
            floats,
            words,
            convention(c.n4, c.n5, c.x4, c.x5),
            c.layers,
            c.n1 as usize,
            c.n2 as usize,
        ),
        _ => run_page(rt, floats, words, c.n1 as usize),
    }
}

// A call by the third letter of its name, which is another for each but `open` and `clear`.
fn call(rt: &impl Print, floats: &mut Floats, words: &mut Words, c: Line) -> io::Result<()> {
    let third = c.third;
    match third {
        b'e' => {
            if c.first == b'o' {
                run_open(rt, floats, words, c.n1 as usize, 0, c.n2 as usize, c.x3)
            } else {
                run_clear(rt, floats, words, c.n1)
            }
        }
        b'c' => run_open(
            rt,
            floats,
            words,
            c.n1 as usize,
            c.n2 as usize,
            c.n3 as usize,
            c.x4,
        ),
        b't' => run_put(rt, floats, words, c.n1, c.x2, c.x3, c.x4, c.layer),
        b'v' => run_advance(rt, floats, words, c.n1),
        b'u' => run_squeeze(rt, floats, words),
        b'i' => {
            run_write(words, c.n1 as usize, c.n2);
            Ok(())
        }
        b'w' => run_reweigh(rt, floats, words, c.n1, c.x2),
        _ => read(rt, floats, words, c),
    }
}

// A line of the script: a call, of which the part before the colon is written, or nothing.
fn run_line(rt: &impl Print, floats: &mut Floats, words: &mut Words, s: &[u8]) -> io::Result<()> {
    if s.len() < 3 {
        return Ok(());
    }
    if s[0] == b'#' {
        return Ok(());
    }
    let colon = next(s, 0, b':');
    rt.write_all(&s[0..colon])?;
    call(rt, floats, words, line_of(s))?;
    say_runs(rt, floats, words)
}

// The lines of the script, in order. (A `while`, since a line begins where the one before ends.)
fn play(rt: &impl Print, floats: &mut Floats, words: &mut Words, script: &[u8]) -> io::Result<()> {
    let mut at = 0;
    while at < script.len() {
        let end = next(script, at, 10);
        run_line(rt, floats, words, &script[at..end])?;
        at = end + 1;
    }
    Ok(())
}

// Reads until `script` is full or the input ends, and answers how many bytes it put at its start. (A `while`, since a
// read answers how much it read.)
fn read_script(input: &mut impl Read, script: &mut [u8]) -> io::Result<usize>
    ensures { IfOk result (λ n. n ≤ length script.new) }
{
    let mut done = 0;
    while done < script.len() {
        let n = input.read(&mut script[done..])?;
        if n == 0 {
            break;
        }
        done += n;
    }
    Ok(done)
}

fn main(rt: HostRuntime) -> io::Result<()> {
    let mut floats = [1.5; 1787];
    let mut words: Words = [9; 167];
    let mut script = [0u8; 65536];
    let n = read_script(&mut rt.stdin(), &mut script)?;
    play(&rt, &mut floats, &mut words, &script[0..n])
}
