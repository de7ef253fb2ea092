// The answer of each call, said. A float is said by its bits, in 16 hexadecimal digits.
use advance::advance::Advanced;
use base::floats::to_pattern;
use base::refusal::Refusal;
use density::report::MassReport;
use pieces::fit::Fit;
use reports::reports::Totals;
use std::io;
use store::open::Opened;
use store::put::Placed;

fn say_refused(rt: &impl Print, refusal: Refusal) -> io::Result<()> {
    let number = u32::from(refusal);
    print!(rt; " no {number}")
}

fn say_float(rt: &impl Print, x: f64) -> io::Result<()> {
    let bits = to_pattern(x);
    print!(rt; " {bits:016x}")
}

pub fn say_opened(rt: &impl Print, opened: Result<Opened, Refusal>) -> io::Result<()> {
    match opened {
        Ok(mesh) => {
            let (verts, faces) = (mesh.verts, mesh.faces);
            print!(rt; " verts {verts} faces {faces}")
        }
        Err(refusal) => say_refused(rt, refusal),
    }
}

fn say_fit(rt: &impl Print, fit: Fit) -> io::Result<()> {
    match fit {
        Fit::Kept => print!(rt; " kept"),
        Fit::Fitted(pivot) => {
            print!(rt; " fitted")?;
            say_float(rt, pivot)
        }
        Fit::Fallback(column) => print!(rt; " fallback {column}"),
        Fit::NoExponent => print!(rt; " no-exponent"),
    }
}

pub fn say_placed(rt: &impl Print, placed: Result<Placed, Refusal>) -> io::Result<()> {
    match placed {
        Ok(put) => {
            let (pieces, need) = (put.pieces, put.steps);
            print!(rt; " pieces {pieces} need {need}")?;
            say_fit(rt, put.fit)
        }
        Err(refusal) => say_refused(rt, refusal),
    }
}

pub fn say_edited(rt: &impl Print, edited: Result<(), Refusal>) -> io::Result<()> {
    match edited {
        Ok(()) => Ok(()),
        Err(refusal) => say_refused(rt, refusal),
    }
}

pub fn say_advanced(rt: &impl Print, advanced: Result<Advanced, Refusal>) -> io::Result<()> {
    match advanced {
        Ok(steps) => {
            let (done, left) = (steps.done, steps.left);
            print!(rt; " done {done} left {left}")
        }
        Err(refusal) => say_refused(rt, refusal),
    }
}

// An answer of one number, after its word.
fn say_number(rt: &impl Print, word: &str, n: Result<u64, Refusal>) -> io::Result<()> {
    match n {
        Ok(n) => print!(rt; " {word} {n}"),
        Err(refusal) => say_refused(rt, refusal),
    }
}

pub fn say_squeezed(rt: &impl Print, freed: Result<u32, Refusal>) -> io::Result<()> {
    say_number(rt, "freed", freed.map(|n| n as u64))
}

pub fn say_listed(rt: &impl Print, pieces: Result<u32, Refusal>) -> io::Result<()> {
    say_number(rt, "pieces", pieces.map(|n| n as u64))
}

pub fn say_tracked(rt: &impl Print, points: Result<u32, Refusal>) -> io::Result<()> {
    say_number(rt, "points", points.map(|n| n as u64))
}

pub fn say_paged(rt: &impl Print, bytes: Result<u64, Refusal>) -> io::Result<()> {
    say_number(rt, "bytes", bytes)
}

pub fn say_measured(rt: &impl Print, value: Result<f64, Refusal>) -> io::Result<()> {
    match value {
        Ok(x) => {
            print!(rt; " value")?;
            say_float(rt, x)
        }
        Err(refusal) => say_refused(rt, refusal),
    }
}

fn say_masses(rt: &impl Print, m: MassReport) -> io::Result<()> {
    print!(rt; " masses")?;
    say_float(rt, m.raw_mass)?;
    say_float(rt, m.rho0_scale)?;
    say_float(rt, m.rho0_mass)?;
    say_float(rt, m.applied_scale)?;
    say_float(rt, m.applied_mass)?;
    say_float(rt, m.target_mass)?;
    say_float(rt, m.volume)
}

pub fn say_reported(rt: &impl Print, report: Result<Totals, Refusal>) -> io::Result<()> {
    match report {
        Ok(totals) => {
            say_masses(rt, totals.mass)?;
            let (filled, pieces) = (totals.filled, totals.pieces);
            print!(rt; " kernels {filled} pieces {pieces} error")?;
            say_float(rt, totals.error)
        }
        Err(refusal) => say_refused(rt, refusal),
    }
}
