// What the program does with a line, which is taken apart once. These functions are internal: they are asked an opening
// of no more vertices and faces than the program takes, and answer such a one.
ghost use Rattle.std.specs.Prelude.{◌≡◌, true, ◌≤◌};
ghost use Rattle.text.specs.Print.{Wrote};
ghost use Rattle.calls.specs.Calls.{bad_text};
ghost use Rattle.forms.specs.declared.line.Line.TheVariants.{Vert, Face, Open, OnStore};
ghost use Rattle.session.specs.Session.{Session, Small, due, session, Does, settled, in_opening, outside, respond};

use crate::opening::{Opening, begun, due, idle, verts_due};
use crate::take::{add_face, add_vert};
use base::refusal::Refusal;
use calls::answer::{answer_no, answer_open};
use calls::call::call;
use forms::line::{Call, Head, Line};

// The opening under way after a line, and the length of what was written.
#[derive(Clone, Copy)]
pub struct Said {
    pub opening: Opening,
    pub wrote: usize,
}

// Opens the store, once no line of the opening is due.
fn settle(
    o: Opening,
    floats: &mut [f64],
    words: &mut [u32],
    coords: &[f64; 1500],
    corners: &[u32; 3000],
    out: &mut [u8; 512],
) -> Said
    requires { Small o }
    ensures small_after { Small result.opening × (result.wrote ≤ 256) }
    ensures does { Does settled
        (session o floats.old words.old coords.now corners.now)
        (session result.opening floats.new words.new coords.now corners.now)
        out.old result.wrote out.new }
{
    if due(o) {
        return Said {
            opening: o,
            wrote: 0,
        };
    }
    let verts = 3 * o.head.verts as usize;
    let faces = 3 * o.head.faces as usize;
    let wrote = answer_open(
        floats,
        words,
        o.head.radius,
        &coords[..verts],
        &corners[..faces],
        out,
    );
    Said { opening: o, wrote }
}

// A line that is answered (no 13).
fn refuse(o: Opening, out: &mut [u8; 512]) -> Said
    ensures opening_value { (result.opening ≡ o) × (result.wrote ≤ 256) }
    ensures wrote { Wrote out.old 0 bad_text result.wrote out.new }
{
    Said {
        opening: o,
        wrote: answer_no(out, Refusal::BadLine),
    }
}

// A vert line where a line of the opening is due.
fn vert_line(
    o: Opening,
    point: [f64; 3],
    floats: &mut [f64],
    words: &mut [u32],
    coords: &mut [f64; 1500],
    corners: &[u32; 3000],
    out: &mut [u8; 512],
) -> Said
    requires { Small o }
    ensures small_after { Small result.opening × (result.wrote ≤ 256) }
    ensures does { Does (λ (s : Session). in_opening s (Vert point))
        (session o floats.old words.old coords.old corners.now)
        (session result.opening floats.new words.new coords.new corners.now)
        out.old result.wrote out.new }
{
    if verts_due(o) {
        let p = add_vert(o, point, coords);
        return settle(p, floats, words, coords, corners, out);
    }
    refuse(idle(), out)
}

// A face line where a line of the opening is due.
fn face_line(
    o: Opening,
    face: [u32; 3],
    floats: &mut [f64],
    words: &mut [u32],
    coords: &[f64; 1500],
    corners: &mut [u32; 3000],
    out: &mut [u8; 512],
) -> Said
    requires small { Small o }
    requires due { due o ≡ true }
    ensures small_after { Small result.opening × (result.wrote ≤ 256) }
    ensures does { Does (λ (s : Session). in_opening s (Face face))
        (session o floats.old words.old coords.now corners.old)
        (session result.opening floats.new words.new coords.now corners.new)
        out.old result.wrote out.new }
{
    if verts_due(o) {
        return refuse(idle(), out);
    }
    let p = add_face(o, face, corners);
    settle(p, floats, words, coords, corners, out)
}

// Any line where a line of the opening is due.
fn in_opening(
    o: Opening,
    l: Line,
    floats: &mut [f64],
    words: &mut [u32],
    coords: &mut [f64; 1500],
    corners: &mut [u32; 3000],
    out: &mut [u8; 512],
) -> Said
    requires small { Small o }
    requires due { due o ≡ true }
    ensures small_after { Small result.opening × (result.wrote ≤ 256) }
    ensures does { Does (λ (s : Session). in_opening s l)
        (session o floats.old words.old coords.old corners.old)
        (session result.opening floats.new words.new coords.new corners.new)
        out.old result.wrote out.new }
{
    match l {
        Line::Vert(point) => vert_line(o, point, floats, words, coords, corners, out),
        Line::Face(face) => face_line(o, face, floats, words, coords, corners, out),
        _ => refuse(idle(), out),
    }
}

// An open line where none is due.
fn open_line(
    o: Opening,
    head: Head,
    floats: &mut [f64],
    words: &mut [u32],
    coords: &[f64; 1500],
    corners: &[u32; 3000],
    out: &mut [u8; 512],
) -> Said
    requires { Small o }
    ensures small_after { Small result.opening × (result.wrote ≤ 256) }
    ensures does { Does (λ (s : Session). outside s (Open head))
        (session o floats.old words.old coords.now corners.now)
        (session result.opening floats.new words.new coords.now corners.now)
        out.old result.wrote out.new }
{
    let taken = (head.verts <= 500) & (head.faces <= 1000);
    if taken {
        let p = begun(head);
        return settle(p, floats, words, coords, corners, out);
    }
    refuse(o, out)
}

// A call where no line is due: the opening and its mesh stay as they are.
fn call_line(
    o: Opening,
    c: Call,
    floats: &mut [f64],
    words: &mut [u32],
    coords: &[f64; 1500],
    corners: &[u32; 3000],
    out: &mut [u8; 512],
) -> Said
    requires { Small o }
    ensures small_after { Small result.opening × (result.wrote ≤ 256) }
    ensures does { Does (λ (s : Session). outside s (OnStore c))
        (session o floats.old words.old coords.now corners.now)
        (session result.opening floats.new words.new coords.now corners.now)
        out.old result.wrote out.new }
{
    Said {
        opening: o,
        wrote: call(c, floats, words, out),
    }
}

// Any line where none is due.
fn outside(
    o: Opening,
    l: Line,
    floats: &mut [f64],
    words: &mut [u32],
    coords: &[f64; 1500],
    corners: &[u32; 3000],
    out: &mut [u8; 512],
) -> Said
    requires { Small o }
    ensures small_after { Small result.opening × (result.wrote ≤ 256) }
    ensures does { Does (λ (s : Session). outside s l)
        (session o floats.old words.old coords.now corners.now)
        (session result.opening floats.new words.new coords.now corners.now)
        out.old result.wrote out.new }
{
    match l {
        Line::Open(head) => open_line(o, head, floats, words, coords, corners, out),
        Line::OnStore(c) => call_line(o, c, floats, words, coords, corners, out),
        _ => refuse(o, out),
    }
}

// Any line, or one that is none.
pub fn respond(
    o: Opening,
    l: Option<Line>,
    floats: &mut [f64],
    words: &mut [u32],
    coords: &mut [f64; 1500],
    corners: &mut [u32; 3000],
    out: &mut [u8; 512],
) -> Said
    requires { Small o }
    ensures small_after { Small result.opening × (result.wrote ≤ 256) }
    ensures does { Does (λ (s : Session). respond s l)
        (session o floats.old words.old coords.old corners.old)
        (session result.opening floats.new words.new coords.new corners.new)
        out.old result.wrote out.new }
{
    let is_due = due(o);
    match l {
        Some(line) if is_due => in_opening(o, line, floats, words, coords, corners, out),
        Some(line) => outside(o, line, floats, words, coords, corners, out),
        None if is_due => refuse(idle(), out),
        None => refuse(o, out),
    }
}
