// The calls that read the store. Of a run that a reading writes into the digest is said too: words past those written
// stay.
use crate::body::points;
use density::convention::Convention;
use page::call::page;
use readings::at_point::density;
use reports::listing::list;
use reports::reports::report;
use std::io;
use test_lines::answers::{say_listed, say_measured, say_paged, say_reported, say_tracked};
use test_lines::line::{say_bytes, say_run};
use track::tracks::track;

// The density at a point beside the kernels' centre.
pub fn run_density(
    rt: &impl Print,
    floats: &[f64],
    words: &[u32],
    v: Convention,
    layers: u32,
) -> io::Result<()> {
    say_measured(rt, density(floats, words, v, layers, [0.75, -0.5, 0.25]))
}

pub fn run_report(
    rt: &impl Print,
    floats: &[f64],
    words: &[u32],
    v: Convention,
    layers: u32,
) -> io::Result<()> {
    say_reported(rt, report(floats, words, v, layers))
}

// The list into the first `room` floats of a run.
fn list_into(
    rt: &impl Print,
    floats: &[f64],
    words: &[u32],
    v: Convention,
    layers: u32,
    room: usize,
    out: &mut [f64],
) -> io::Result<()> {
    if room <= out.len() {
        say_listed(rt, list(floats, words, v, layers, &mut out[0..room]))?;
        say_run(rt, out)?;
    }
    Ok(())
}

pub fn run_list(
    rt: &impl Print,
    floats: &[f64],
    words: &[u32],
    v: Convention,
    layers: u32,
    room: usize,
) -> io::Result<()> {
    let mut out = [2.5; 1200];
    list_into(rt, floats, words, v, layers, room, &mut out)
}

// The densities at these points into the first `room` floats of a run.
fn track_into(
    rt: &impl Print,
    floats: &[f64],
    words: &[u32],
    v: Convention,
    layers: u32,
    points: &[f64],
    room: usize,
    out: &mut [f64],
) -> io::Result<()> {
    if room <= out.len() {
        say_tracked(
            rt,
            track(floats, words, v, layers, points, &mut out[0..room]),
        )?;
        say_run(rt, out)?;
    }
    Ok(())
}

// The densities at the first of these points, so many coordinates.
fn track_first(
    rt: &impl Print,
    floats: &[f64],
    words: &[u32],
    v: Convention,
    layers: u32,
    points: &[f64],
    n: usize,
    room: usize,
) -> io::Result<()> {
    let mut out = [2.5; 4100];
    if n <= points.len() {
        track_into(rt, floats, words, v, layers, &points[0..n], room, &mut out)?;
    }
    Ok(())
}

// A track of a few of the body's points, or of so many that all are one.
pub fn run_track(
    rt: &impl Print,
    floats: &[f64],
    words: &[u32],
    v: Convention,
    layers: u32,
    n: usize,
    room: usize,
) -> io::Result<()> {
    if n <= 24 {
        track_first(rt, floats, words, v, layers, &points(), n, room)
    } else {
        track_first(rt, floats, words, v, layers, &[0.5; 12291], n, room)
    }
}

// The page into the first `room` bytes of a run.
fn page_into(
    rt: &impl Print,
    floats: &[f64],
    words: &[u32],
    room: usize,
    out: &mut [u8],
) -> io::Result<()> {
    if room <= out.len() {
        say_paged(rt, page(floats, words, &mut out[0..room]))?;
        say_bytes(rt, out)?;
    }
    Ok(())
}

// Before it the run is of full stops.
pub fn run_page(rt: &impl Print, floats: &[f64], words: &[u32], room: usize) -> io::Result<()> {
    let mut out: [u8; 2200] = [46; 2200];
    page_into(rt, floats, words, room, &mut out)
}
