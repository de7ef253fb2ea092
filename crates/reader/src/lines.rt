// Each line read at a position. No function here has a `requires`: at a position past the end no line stands.
ghost use Rattle.std.specs.Prelude.{◌≡◌};
ghost use Rattle.text.specs.Text.{rest, got};
ghost use Rattle.text.specs.Form.{end, either, three, map};
ghost use Rattle.text.specs.Form.{read as form};
ghost use Rattle.forms.specs.Forms.{put_end, array_of, head_of};
ghost use Rattle.script.specs.Lines.{open_line, vert_line, face_line, layer_end, put_line};
ghost use Rattle.reader.specs.ReadOf.{layer_named, entry_of};

use forms::line::{Head, Put};
use forms::parts::{face, opening, put_start, vertex};
use text::read::{Read, read_bytes, read_u32, skip_float};

// A put, and its layer.
#[derive(Clone, Copy)]
pub struct Entry {
    pub put: Put,
    pub layer: u32,
}

// (open (radius h) (verts V) (faces F))
pub fn read_open(s: &[u8], at: usize) -> Read<Head>
    ensures { got s.now result.value result.at ≡ map head_of (form open_line (rest s.now at)) }
{
    opening(s, at).then(s, b"\n")
}

// (vert h h h)
pub fn read_vert(s: &[u8], at: usize) -> Read<[f64; 3]>
    ensures { got s.now result.value result.at ≡ map array_of (form vert_line (rest s.now at)) }
{
    vertex(s, at).then(s, b"\n")
}

// The position after h h h, which are not worked out.
fn skip_three(s: &[u8], at: usize) -> usize
    ensures { rest s.now result ≡ (form (three end) (rest s.now at)).text }
{
    let x = skip_float(s, at);
    let y = skip_float(s, read_bytes(s, x, b" "));
    skip_float(s, read_bytes(s, y, b" "))
}

// The position after (vert h h h), whose floats are not worked out.
pub fn skip_vert(s: &[u8], at: usize) -> usize
    ensures { rest s.now result ≡ (form vert_line (rest s.now at)).text }
{
    let p = skip_three(s, read_bytes(s, at, b"(vert "));
    read_bytes(s, read_bytes(s, p, b")"), b"\n")
}

// (face N N N)
pub fn read_face(s: &[u8], at: usize) -> Read<[u32; 3]>
    ensures { got s.now result.value result.at ≡ map array_of (form face_line (rest s.now at)) }
{
    face(s, at).then(s, b"\n")
}

// )) or ) (layer N)), and the layer that it names.
fn read_layer(s: &[u8], at: usize) -> Read<u32>
    ensures { got s.now result.value result.at
        ≡ map layer_named (form (either put_end layer_end end) (rest s.now at)) }
{
    let none = Read {
        value: 0,
        at: read_bytes(s, at, b"))"),
    };
    let named = read_u32(s, read_bytes(s, at, b") (layer ")).then(s, b"))");
    none.or(named, s)
}

// (put P (c h h h) (sigma h) (w h) (alpha h)), or with (layer N) after alpha
pub fn read_put(s: &[u8], at: usize) -> Read<Entry>
    ensures { got s.now result.value result.at ≡ map entry_of (form put_line (rest s.now at)) }
{
    let p = put_start(s, at);
    let layer = read_layer(s, p.at).then(s, b"\n");
    Read {
        value: Entry {
            put: p.value,
            layer: layer.value,
        },
        at: layer.at,
    }
}
