// The writer: opening, vertices, faces, puts by rising place. Too few bytes are refused before the first is written.
// The run and the position in it stay two parameters, as in text: `Wrote` says of both, in one term, what a struct's
// clauses would say of its fields.
#![tactic(auto)]

ghost use Rattle.std.specs.Prelude.{◌≡◌, ℕ, ◌+◌, ◌*◌, ◌<◌, ◌≤◌, length};
ghost use Rattle.base.specs.Answers.{counted_as, printout};
ghost use Rattle.layout.specs.Runs.{write};
ghost use Rattle.layout.specs.Layout.{width, place_limit, coords_from, corners_from};
ghost use Rattle.layout.specs.SoundLaws.{Fine};
ghost use Rattle.text.specs.Print.{Wrote, decimal_length};
ghost use Rattle.text.specs.Form.{print, ◌&◌};
ghost use Rattle.script.specs.Lines.{open_line, vert_line, face_line, put_line};
ghost use Rattle.script.specs.Written.{put_of, put_in, centre_text, put_row, put_rows, vert_rows, face_rows};
ghost use Rattle.script.specs.Written.{lines_of, written, text_answer, write_step};

use base::refusal::Refusal;
use kernel::kernel::Kernel;
use layout::check::check_store;
use layout::offsets::{COORDS, CORNERS, KERNEL, KERNEL_SIZE, LAYER, PLACES, STATE, WIDTH};
use script::room::has_room;
use text::write::{write_bytes, write_number, write_real};

// (open (radius h) (verts V) (faces F))
#[tactic(auto, using(text::specs::WriteLaws::then))]
fn write_open(out: &mut [u8], at: usize, radius: f64, verts: u32, faces: u32) -> usize
    requires { at + 51 + decimal_length verts + decimal_length faces ≤ length out.old }
    ensures value { result ≡ at + 51 + decimal_length verts + decimal_length faces }
    ensures wrote { Wrote out.old at (print open_line (radius & verts & faces & tt)) result out.new }
{
    let a = write_real(out, at, b"(open (radius ", radius);
    let b = write_number(out, a, b") (verts ", verts as u64);
    let c = write_number(out, b, b") (faces ", faces as u64);
    write_bytes(out, c, b"))\n")
}

// (vert h h h)
#[tactic(auto, using(text::specs::WriteLaws::then))]
fn write_vert(out: &mut [u8], at: usize, x: f64, y: f64, z: f64) -> usize
    requires { at + 58 ≤ length out.old }
    ensures value { result ≡ at + 58 }
    ensures wrote { Wrote out.old at (print vert_line (x & y & z & tt)) result out.new }
{
    let a = write_real(out, at, b"(vert ", x);
    let b = write_real(out, a, b" ", y);
    let c = write_real(out, b, b" ", z);
    write_bytes(out, c, b")\n")
}

// (face N N N)
#[tactic(auto, using(text::specs::WriteLaws::then))]
fn write_face(out: &mut [u8], at: usize, a: u32, b: u32, c: u32) -> usize
    requires { at + 10 + decimal_length a + decimal_length b + decimal_length c ≤ length out.old }
    ensures value { result ≡ at + 10 + decimal_length a + decimal_length b + decimal_length c }
    ensures wrote { Wrote out.old at (print face_line (a & b & c & tt)) result out.new }
{
    let k = write_number(out, at, b"(face ", a as u64);
    let l = write_number(out, k, b" ", b as u64);
    let m = write_number(out, l, b" ", c as u64);
    write_bytes(out, m, b")\n")
}

// The kernel of a place, as the store keeps it.
fn kept_at(floats: &[f64], i: usize) -> Kernel
    requires { (i < place_limit) × (coords_from ≤ length floats.now) }
    ensures { (layer : ℕ) → put_of i result layer ≡ put_in floats.now i layer }
{
    let k = KERNEL + KERNEL_SIZE * i;
    Kernel {
        c: [floats[k], floats[k + 1], floats[k + 2]],
        sigma: floats[k + 3],
        w: floats[k + 4],
        alpha: floats[k + 5],
    }
}

// (put P (c h h h
#[tactic(auto, using(text::specs::WriteLaws::then))]
fn write_place(out: &mut [u8], at: usize, place: u32, centre: [f64; 3]) -> usize
    requires { at + 59 + decimal_length place ≤ length out.old }
    ensures value { result ≡ at + 59 + decimal_length place }
    ensures wrote { Wrote out.old at (centre_text place centre) result out.new }
{
    let a = write_number(out, at, b"(put ", place as u64);
    let b = write_real(out, a, b" (c ", centre[0]);
    let c = write_real(out, b, b" ", centre[1]);
    write_real(out, c, b" ", centre[2])
}

// (put P (c h h h) (sigma h) (w h) (alpha h) (layer N))
fn write_put(out: &mut [u8], at: usize, place: u32, k: Kernel, layer: u32) -> usize
    requires { at + 142 + decimal_length place + decimal_length layer ≤ length out.old }
    ensures value { result ≡ at + 142 + decimal_length place + decimal_length layer }
    ensures wrote { Wrote out.old at (print put_line (put_of place k layer)) result out.new }
{
    let a = write_place(out, at, place, k.c);
    let b = write_real(out, a, b") (sigma ", k.sigma);
    let c = write_real(out, b, b") (w ", k.w);
    let d = write_real(out, c, b") (alpha ", k.alpha);
    let e = write_number(out, d, b") (layer ", layer as u64);
    write_bytes(out, e, b"))\n")
}

// The lines of n vertices.
#[tactic(auto, using(crate::proofs::Writing::verts))]
fn write_verts(out: &mut [u8], at: usize, floats: &[f64], n: usize) -> usize
    requires { (at + 58 * n ≤ length out.old) × (coords_from + 3 * n ≤ length floats.now) }
    ensures value { result ≡ at + 58 * n }
    ensures wrote { Wrote out.old at (vert_rows floats.now n 0) result out.new }
{
    let mut k = at;
    for i in 0..n {
        let j = COORDS + 3 * i;
        k = write_vert(out, k, floats[j], floats[j + 1], floats[j + 2]);
    }
    k
}

// The lines of n faces.
#[tactic(auto, using(crate::proofs::Writing::faces))]
fn write_faces(out: &mut [u8], at: usize, words: &[u32], n: usize) -> usize
    requires { (at + length (face_rows width words.now n 0) ≤ length out.old)
        × (corners_from width + 3 * n ≤ length words.now) }
    ensures { Wrote out.old at (face_rows width words.now n 0) result out.new }
{
    let mut k = at;
    for i in 0..n {
        let j = CORNERS + 3 * i;
        k = write_face(out, k, words[j], words[j + 1], words[j + 2]);
    }
    k
}

// The line of a place, none where it is empty.
fn write_row(out: &mut [u8], at: usize, floats: &[f64], words: &[u32], i: usize) -> usize
    requires { (at + length (put_row width floats.now words.now i) ≤ length out.old) × (i < place_limit)
        × (coords_from ≤ length floats.now) × (corners_from width ≤ length words.now) }
    ensures { Wrote out.old at (put_row width floats.now words.now i) result
        out.new }
{
    if words[STATE + WIDTH * i] == 0 {
        return at;
    }
    write_put(
        out,
        at,
        i as u32,
        kept_at(floats, i),
        words[LAYER + WIDTH * i],
    )
}

// The lines of all places.
#[tactic(auto, using(crate::proofs::Writing::puts))]
fn write_puts(out: &mut [u8], at: usize, floats: &[f64], words: &[u32]) -> usize
    requires { (at + length (put_rows width floats.now words.now place_limit 0) ≤ length out.old)
        × (coords_from ≤ length floats.now) × (corners_from width ≤ length words.now) }
    ensures { Wrote out.old at
        (put_rows width floats.now words.now place_limit 0) result out.new }
{
    let mut k = at;
    for i in 0..PLACES {
        k = write_row(out, k, floats, words, i);
    }
    k
}

// All lines, in bytes that have room for them; answers how many bytes they are.
fn write_lines(floats: &[f64], words: &[u32], verts: u32, faces: u32, out: &mut [u8]) -> usize
    requires { (length (lines_of width floats.now words.now verts faces) ≤ length out.old)
        × (coords_from + 3 * verts ≤ length floats.now) × (corners_from width + 3 * faces ≤ length words.now) }
    ensures value { result ≡ length (lines_of width floats.now words.now verts faces) }
    ensures out_after { out.new ≡ write out.old 0
        (lines_of width floats.now words.now verts faces) }
{
    let a = write_open(out, 0, floats[0], verts, faces);
    let b = write_verts(out, a, floats, verts as usize);
    let c = write_faces(out, b, words, faces as usize);
    write_puts(out, c, floats, words)
}

// The lines of a sound store, if the bytes have room for them.
fn write_sound(floats: &[f64], words: &[u32], out: &mut [u8]) -> Result<u64, Refusal>
    requires { Fine width floats.now words.now }
    ensures { printout (counted_as result) out.new
        ≡ text_answer (written width floats.now words.now) out.old }
{
    if !has_room(words, out.len()) {
        return Err(Refusal::ShortText);
    }
    let n = write_lines(floats, words, words[0], words[1], out);
    Ok(n as u64)
}

// Writes a store as lines into lent bytes; answers how many bytes they are.
#[tactic(auto, unfolding(script::specs::Written::write_step), using(layout::specs::SoundLaws::fine))]
pub fn write_store(floats: &[f64], words: &[u32], out: &mut [u8]) -> Result<u64, Refusal>
    ensures { printout (counted_as result) out.new
        ≡ write_step width floats.now words.now out.old }
{
    check_store(floats, words)?;
    write_sound(floats, words, out)
}
