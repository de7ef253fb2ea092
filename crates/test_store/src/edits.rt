// The calls that change the store.
use crate::body::{coordinates, corners};
use advance::advance::advance;
use kernel::kernel::Kernel;
use squeeze::squeeze::squeeze;
use std::io;
use store::edit::{clear, reweigh};
use store::open::open;
use store::put::put;
use test_lines::answers::{say_advanced, say_edited, say_opened, say_placed, say_squeezed};
use test_lines::script::WORD;

// The runs have room for 8 vertices and 12 faces, and a few words of excess.
pub type Floats = [f64; 1787];

pub type Words = [u32; 167];

fn open_with(
    rt: &impl Print,
    floats: &mut Floats,
    words: &mut Words,
    n: usize,
    radius: f64,
    faces: &[u32],
) -> io::Result<()> {
    if n <= 30 {
        say_opened(rt, open(floats, words, radius, &coordinates()[0..n], faces))?;
    }
    Ok(())
}

// Opens the store with so many coordinates of the mesh, and its corners from one position to another.
pub fn run_open(
    rt: &impl Print,
    floats: &mut Floats,
    words: &mut Words,
    n: usize,
    from: usize,
    to: usize,
    radius: f64,
) -> io::Result<()> {
    if to > 39 {
        return Ok(());
    }
    if from > to {
        return Ok(());
    }
    open_with(rt, floats, words, n, radius, &corners()[from..to])
}

// Puts a kernel into a layer; all have one centre.
pub fn run_put(
    rt: &impl Print,
    floats: &mut Floats,
    words: &mut Words,
    place: u64,
    sigma: f64,
    weight: f64,
    alpha: f64,
    layer: u32,
) -> io::Result<()> {
    let k = Kernel {
        c: [0.25, -0.125, 0.5],
        sigma,
        w: weight,
        alpha,
    };
    say_placed(rt, put(floats, words, (place % WORD) as u32, k, layer))
}

pub fn run_clear(
    rt: &impl Print,
    floats: &mut Floats,
    words: &mut Words,
    place: u64,
) -> io::Result<()> {
    say_edited(rt, clear(floats, words, (place % WORD) as u32))
}

pub fn run_reweigh(
    rt: &impl Print,
    floats: &mut Floats,
    words: &mut Words,
    place: u64,
    weight: f64,
) -> io::Result<()> {
    say_edited(rt, reweigh(floats, words, (place % WORD) as u32, weight))
}

pub fn run_advance(
    rt: &impl Print,
    floats: &mut Floats,
    words: &mut Words,
    budget: u64,
) -> io::Result<()> {
    say_advanced(rt, advance(floats, words, budget))
}

pub fn run_squeeze(rt: &impl Print, floats: &mut Floats, words: &mut Words) -> io::Result<()> {
    say_squeezed(rt, squeeze(floats, words))
}

// Writes a word of the store from outside.
pub fn run_write(words: &mut Words, at: usize, value: u64) {
    if at < 167 {
        words[at] = (value % WORD) as u32;
    }
}
