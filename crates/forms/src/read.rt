// Each form of the program's lines as a token at a position, and the meaning of a whole line, which is read by the form
// that its first word names. No function here has a `requires`.
ghost use Rattle.std.specs.Prelude.{◌≡◌};
ghost use Rattle.text.specs.Text.{rest, got};
ghost use Rattle.text.specs.Form.{end, map};
ghost use Rattle.text.specs.Form.{read as form};
ghost use Rattle.text.specs.FormLaws.{begins};
ghost use Rattle.forms.specs.Forms.{raw_form, rho0_form, mass_form, convention, to_raw, to_rho0, to_mass, to_convention};
ghost use Rattle.forms.specs.Forms.{open_form, vert_form, face_form, put_form, clear_form, reweigh_form, advance_form, density_form, report_form};
ghost use Rattle.forms.specs.Forms.{to_open, to_vert, to_face, to_put, to_clear, to_reweigh, to_advance, to_density, to_report, if_ended, parse_line};
ghost use Rattle.forms.specs.Words.{call_by_word, by_word};

use crate::line::{Call, Line};
use crate::parts::{face, opening, put_start, read_three, vertex};
use density::convention::Convention;
use text::read::{Read, read_bytes, read_float, read_u32, read_u64};

// (raw)
fn read_raw(s: &[u8], at: usize) -> Read<Convention>
    ensures { got s.now result.value result.at ≡ map to_raw (form raw_form (rest s.now at)) }
{
    Read {
        value: Convention::Raw,
        at: read_bytes(s, at, b"(raw)"),
    }
}

// (rho0 h)
fn read_rho0(s: &[u8], at: usize) -> Read<Convention>
    ensures { got s.now result.value result.at ≡ map to_rho0 (form rho0_form (rest s.now at)) }
{
    let b = read_float(s, read_bytes(s, at, b"(rho0 "));
    Read {
        value: Convention::Rho0(b.value),
        at: read_bytes(s, b.at, b")"),
    }
}

// (mass h h)
fn read_mass(s: &[u8], at: usize) -> Read<Convention>
    ensures { got s.now result.value result.at ≡ map to_mass (form mass_form (rest s.now at)) }
{
    let t = read_float(s, read_bytes(s, at, b"(mass "));
    let b = read_float(s, read_bytes(s, t.at, b" "));
    Read {
        value: Convention::Mass(t.value, b.value),
        at: read_bytes(s, b.at, b")"),
    }
}

// A convention.
pub fn read_convention(s: &[u8], at: usize) -> Read<Convention>
    ensures { got s.now result.value result.at
        ≡ map to_convention (form (convention end) (rest s.now at)) }
{
    let scaled = read_rho0(s, at).or(read_mass(s, at), s);
    read_raw(s, at).or(scaled, s)
}

// (open (radius h) (verts V) (faces F))
pub fn read_open(s: &[u8], at: usize) -> Read<Line>
    ensures { got s.now result.value result.at ≡ map to_open (form open_form (rest s.now at)) }
{
    let h = opening(s, at);
    Read {
        value: Line::Open(h.value),
        at: h.at,
    }
}

// (vert h h h)
pub fn read_vert(s: &[u8], at: usize) -> Read<Line>
    ensures { got s.now result.value result.at ≡ map to_vert (form vert_form (rest s.now at)) }
{
    let p = vertex(s, at);
    Read {
        value: Line::Vert(p.value),
        at: p.at,
    }
}

// (face N N N)
pub fn read_face(s: &[u8], at: usize) -> Read<Line>
    ensures { got s.now result.value result.at ≡ map to_face (form face_form (rest s.now at)) }
{
    let p = face(s, at);
    Read {
        value: Line::Face(p.value),
        at: p.at,
    }
}

// (put P (c h h h) (sigma h) (w h) (alpha h))
pub fn read_put(s: &[u8], at: usize) -> Read<Line>
    ensures { got s.now result.value result.at ≡ map to_put (form put_form (rest s.now at)) }
{
    let p = put_start(s, at);
    Read {
        value: Line::OnStore(Call::Put(p.value)),
        at: read_bytes(s, p.at, b"))"),
    }
}

// (clear P)
pub fn read_clear(s: &[u8], at: usize) -> Read<Line>
    ensures { got s.now result.value result.at
        ≡ map to_clear (form clear_form (rest s.now at)) }
{
    let p = read_u32(s, read_bytes(s, at, b"(clear "));
    Read {
        value: Line::OnStore(Call::Clear(p.value)),
        at: read_bytes(s, p.at, b")"),
    }
}

// (reweigh P h)
pub fn read_reweigh(s: &[u8], at: usize) -> Read<Line>
    ensures { got s.now result.value result.at
        ≡ map to_reweigh (form reweigh_form (rest s.now at)) }
{
    let p = read_u32(s, read_bytes(s, at, b"(reweigh "));
    let w = read_float(s, read_bytes(s, p.at, b" "));
    Read {
        value: Line::OnStore(Call::Reweigh(p.value, w.value)),
        at: read_bytes(s, w.at, b")"),
    }
}

// (advance N)
pub fn read_advance(s: &[u8], at: usize) -> Read<Line>
    ensures { got s.now result.value result.at
        ≡ map to_advance (form advance_form (rest s.now at)) }
{
    let n = read_u64(s, read_bytes(s, at, b"(advance "));
    Read {
        value: Line::OnStore(Call::Advance(n.value)),
        at: read_bytes(s, n.at, b")"),
    }
}

// (density CONV h h h)
pub fn read_density(s: &[u8], at: usize) -> Read<Line>
    ensures { got s.now result.value result.at
        ≡ map to_density (form density_form (rest s.now at)) }
{
    let c = read_convention(s, read_bytes(s, at, b"(density "));
    let p = read_three(s, read_bytes(s, c.at, b" "));
    Read {
        value: Line::OnStore(Call::Density(c.value, p.value)),
        at: read_bytes(s, p.at, b")"),
    }
}

// (report CONV)
pub fn read_report(s: &[u8], at: usize) -> Read<Line>
    ensures { got s.now result.value result.at
        ≡ map to_report (form report_form (rest s.now at)) }
{
    let c = read_convention(s, read_bytes(s, at, b"(report "));
    Read {
        value: Line::OnStore(Call::Report(c.value)),
        at: read_bytes(s, c.at, b")"),
    }
}

// Whether a line begins with these bytes.
fn begins(s: &[u8], word: &[u8]) -> bool
    ensures { result ≡ begins word.now s.now }
{
    s.starts_with(word)
}

// A call read by the form that its first word names; one that begins with no form's word is not of the last form
// either.
fn read_call(s: &[u8]) -> Read<Line>
    ensures { if_ended (rest s.now result.at) result.value ≡ call_by_word s.now }
{
    if begins(s, b"(put ") {
        return read_put(s, 0);
    }
    if begins(s, b"(clear ") {
        return read_clear(s, 0);
    }
    if begins(s, b"(reweigh ") {
        return read_reweigh(s, 0);
    }
    if begins(s, b"(advance ") {
        return read_advance(s, 0);
    }
    if begins(s, b"(density ") {
        return read_density(s, 0);
    }
    read_report(s, 0)
}

// A line read by the form that its first word names.
fn read_line(s: &[u8]) -> Read<Line>
    ensures { if_ended (rest s.now result.at) result.value ≡ by_word s.now }
{
    if begins(s, b"(open (radius ") {
        return read_open(s, 0);
    }
    if begins(s, b"(vert ") {
        return read_vert(s, 0);
    }
    if begins(s, b"(face ") {
        return read_face(s, 0);
    }
    read_call(s)
}

// What a whole line means; one of no form means nothing.
pub fn parse_line(s: &[u8]) -> Option<Line>
    ensures { result ≡ parse_line s.now }
{
    let r = read_line(s);
    if r.at == s.len() { Some(r.value) } else { None }
}
