// Parts of a line as tokens at a position: those of an opening's lines, and a put's up to its exponent. No function
// here has a `requires`.
ghost use Rattle.std.specs.Prelude.{◌≡◌};
ghost use Rattle.text.specs.Text.{rest, got};
ghost use Rattle.text.specs.Form.{end, three, map};
ghost use Rattle.text.specs.Form.{read as form};
ghost use Rattle.forms.specs.Forms.{open_form, vert_form, face_form, put_start, array_of, head_of, put_of};

use crate::line::{Head, Put};
use kernel::kernel::Kernel;
use text::read::{Read, read_bytes, read_float, read_u32};

// h h h
pub fn read_three(s: &[u8], at: usize) -> Read<[f64; 3]>
    ensures { got s.now result.value result.at ≡ map array_of (form (three end) (rest s.now at)) }
{
    let x = read_float(s, at);
    let y = read_float(s, read_bytes(s, x.at, b" "));
    let z = read_float(s, read_bytes(s, y.at, b" "));
    Read {
        value: [x.value, y.value, z.value],
        at: z.at,
    }
}

// (open (radius h) (verts V) (faces F))
pub fn opening(s: &[u8], at: usize) -> Read<Head>
    ensures { got s.now result.value result.at ≡ map head_of (form open_form (rest s.now at)) }
{
    let r = read_float(s, read_bytes(s, at, b"(open (radius "));
    let v = read_u32(s, read_bytes(s, r.at, b") (verts "));
    let f = read_u32(s, read_bytes(s, v.at, b") (faces "));
    Read {
        value: Head {
            radius: r.value,
            verts: v.value,
            faces: f.value,
        },
        at: read_bytes(s, f.at, b"))"),
    }
}

// (vert h h h)
pub fn vertex(s: &[u8], at: usize) -> Read<[f64; 3]>
    ensures { got s.now result.value result.at ≡ map array_of (form vert_form (rest s.now at)) }
{
    read_three(s, read_bytes(s, at, b"(vert ")).then(s, b")")
}

// (face N N N)
pub fn face(s: &[u8], at: usize) -> Read<[u32; 3]>
    ensures { got s.now result.value result.at ≡ map array_of (form face_form (rest s.now at)) }
{
    let a = read_u32(s, read_bytes(s, at, b"(face "));
    let b = read_u32(s, read_bytes(s, a.at, b" "));
    let c = read_u32(s, read_bytes(s, b.at, b" "));
    Read {
        value: [a.value, b.value, c.value],
        at: read_bytes(s, c.at, b")"),
    }
}

// (put P (c h h h) (sigma h) (w h) (alpha h
pub fn put_start(s: &[u8], at: usize) -> Read<Put>
    ensures { got s.now result.value result.at ≡ map put_of (form put_start (rest s.now at)) }
{
    let p = read_u32(s, read_bytes(s, at, b"(put "));
    let centre = read_three(s, read_bytes(s, p.at, b" (c "));
    let g = read_float(s, read_bytes(s, centre.at, b") (sigma "));
    let w = read_float(s, read_bytes(s, g.at, b") (w "));
    let a = read_float(s, read_bytes(s, w.at, b") (alpha "));
    let c = centre.value;
    Read {
        value: Put {
            place: p.value,
            kernel: Kernel {
                c,
                sigma: g.value,
                w: w.value,
                alpha: a.value,
            },
        },
        at: a.at,
    }
}
