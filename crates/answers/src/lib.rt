// The program's answers, each written as a line without its newline at a position of a run; each answers the position
// after it, and leaves all other words as they were. These functions are internal (each has a `requires`): a line wants
// room for 256 bytes from its position, and takes 255 at most.
// The run and the position are two arguments and no struct: what is proved speaks of both, as `Wrote` does.
#![tactic(auto)]

ghost use Rattle.std.specs.Prelude.{[], ◌∷◌, ◌++◌, ◌+◌, ◌≤◌, length};
ghost use Rattle.text.specs.Print.{Wrote, decimal_text};
ghost use Rattle.text.specs.Form.{end, print, three, ◌&◌};
ghost use Rattle.answers.specs.Answers.{open_answer, put_answer, density_answer, advance_answer, clear_answer, reweigh_answer, counts, report_answer, report_in, no_answer};

use density::report::MassReport;
use text::write::{write_bytes, write_real};

// The bytes `p`, and a decimal number, where there is room for any: text's own asks for the room of the very number,
// which a line with room for 256 bytes would have to add up.
fn write_number(out: &mut [u8], at: usize, p: &[u8], n: u64) -> usize
    requires { at + length p.now + 20 ≤ length out.old }
    ensures upper_bound { result ≤ at + length p.now + 20 }
    ensures wrote { Wrote out.old at (p.now ++ decimal_text n) result out.new }
{
    text::write::write_number(out, at, p, n)
}

// (open (verts V) (faces F))
pub fn write_open(out: &mut [u8], at: usize, verts: u32, faces: u32) -> usize
    requires { at + 256 ≤ length out.old }
    ensures upper_bound { result ≤ at + 255 }
    ensures wrote { Wrote out.old at (print open_answer (verts & faces & tt)) result out.new }
{
    let a = write_number(out, at, b"(open (verts ", verts as u64);
    let b = write_number(out, a, b") (faces ", faces as u64);
    write_bytes(out, b, b"))")
}

// (put P (pieces N) (steps N))
pub fn write_put(out: &mut [u8], at: usize, place: u32, pieces: u32, steps: u32) -> usize
    requires { at + 256 ≤ length out.old }
    ensures upper_bound { result ≤ at + 255 }
    ensures wrote { Wrote out.old at (print put_answer (place & pieces & steps & tt)) result out.new }
{
    let a = write_number(out, at, b"(put ", place as u64);
    let b = write_number(out, a, b" (pieces ", pieces as u64);
    let c = write_number(out, b, b") (steps ", steps as u64);
    write_bytes(out, c, b"))")
}

// (density h)
pub fn write_density(out: &mut [u8], at: usize, x: f64) -> usize
    requires { at + 256 ≤ length out.old }
    ensures upper_bound { result ≤ at + 255 }
    ensures wrote { Wrote out.old at (print density_answer (x & tt)) result out.new }
{
    let a = write_real(out, at, b"(density ", x);
    write_bytes(out, a, b")")
}

// (advance (done N) (left N))
pub fn write_advance(out: &mut [u8], at: usize, done: u64, left: u64) -> usize
    requires { at + 256 ≤ length out.old }
    ensures upper_bound { result ≤ at + 255 }
    ensures wrote { Wrote out.old at (print advance_answer (done & left & tt)) result out.new }
{
    let a = write_number(out, at, b"(advance (done ", done);
    let b = write_number(out, a, b") (left ", left);
    write_bytes(out, b, b"))")
}

// The bytes `p`, a number and a bracket: an answer of one number.
fn write_one(out: &mut [u8], at: usize, p: &[u8], n: u32) -> usize
    requires { at + length p.now + 21 ≤ length out.old }
    ensures upper_bound { result ≤ at + length p.now + 21 }
    ensures wrote { Wrote out.old at ((p.now ++ decimal_text n) ++ 41 ∷ []) result out.new }
{
    let a = write_number(out, at, p, n as u64);
    write_bytes(out, a, b")")
}

// (clear P)
pub fn write_clear(out: &mut [u8], at: usize, place: u32) -> usize
    requires { at + 256 ≤ length out.old }
    ensures upper_bound { result ≤ at + 255 }
    ensures wrote { Wrote out.old at (print clear_answer (place & tt)) result out.new }
{
    write_one(out, at, b"(clear ", place)
}

// (reweigh P)
pub fn write_reweigh(out: &mut [u8], at: usize, place: u32) -> usize
    requires { at + 256 ≤ length out.old }
    ensures upper_bound { result ≤ at + 255 }
    ensures wrote { Wrote out.old at (print reweigh_answer (place & tt)) result out.new }
{
    write_one(out, at, b"(reweigh ", place)
}

// The bytes `p`, and h h h.
fn write_three(out: &mut [u8], at: usize, p: &[u8], x: f64, y: f64, z: f64) -> usize
    requires { at + length p.now + 50 ≤ length out.old }
    ensures upper_bound { result ≤ at + length p.now + 50 }
    ensures wrote { Wrote out.old at (p.now ++ print (three end) (x & y & z & tt)) result
        out.new }
{
    let a = write_real(out, at, p, x);
    let b = write_real(out, a, b" ", y);
    write_real(out, b, b" ", z)
}

// The end of a report: (kernels N) (pieces N) (error h)) after a space.
fn write_counts(out: &mut [u8], at: usize, kernels: u32, pieces: u32, error: f64) -> usize
    requires { at + 87 ≤ length out.old }
    ensures upper_bound { result ≤ at + 87 }
    ensures wrote { Wrote out.old at (print counts (kernels & pieces & error & tt)) result out.new }
{
    let a = write_number(out, at, b" (kernels ", kernels as u64);
    let b = write_number(out, a, b") (pieces ", pieces as u64);
    let c = write_real(out, b, b") (error ", error);
    write_bytes(out, c, b"))")
}

// (report h h h h h h h (kernels N) (pieces N) (error h))
pub fn write_report(
    out: &mut [u8],
    at: usize,
    m: MassReport,
    kernels: u32,
    pieces: u32,
    error: f64,
) -> usize
    requires { at + 256 ≤ length out.old }
    ensures upper_bound { result ≤ at + 255 }
    ensures wrote { Wrote out.old at
        (print report_answer (report_in m kernels pieces error)) result out.new }
{
    let a = write_three(out, at, b"(report ", m.raw_mass, m.rho0_scale, m.rho0_mass);
    let b = write_three(out, a, b" ", m.applied_scale, m.applied_mass, m.target_mass);
    let c = write_real(out, b, b" ", m.volume);
    write_counts(out, c, kernels, pieces, error)
}

// (no N)
pub fn write_no(out: &mut [u8], at: usize, number: u32) -> usize
    requires { at + 256 ≤ length out.old }
    ensures upper_bound { result ≤ at + 255 }
    ensures wrote { Wrote out.old at (print no_answer (number & tt)) result out.new }
{
    write_one(out, at, b"(no ", number)
}
