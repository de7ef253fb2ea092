// The lines of a kernel file, each a token at a position. No function here has a `requires`.
ghost use Rattle.std.specs.Prelude.{◌≡◌, length};
ghost use Rattle.text.specs.Text.{rest, got};
ghost use Rattle.text.specs.Form.{map};
ghost use Rattle.text.specs.Form.{read as form};
ghost use Rattle.convert.specs.Loaders.{all_alike_lem};
ghost use Rattle.convert.specs.Lines.{given_form, missing_form, exponent_form, to_given, to_missing, to_exponent, file_line, filed, all_lines};

use crate::file::{FileKernel, is_alike};
use text::read::{Read, read_bytes, read_float};

// What the lines of a file are: how many, whether both loaders make the same kernels of them, and whether all bytes are
// lines. A line that is not of the form is counted still, and is the last.
#[derive(Clone, Copy)]
pub struct Scan {
    pub lines: usize,
    pub same: bool,
    pub ended: bool,
}

// h
fn read_given(s: &[u8], at: usize) -> Read<Option<f64>>
    ensures { got s.now result.value result.at
        ≡ map to_given (form given_form (rest s.now at)) }
{
    let a = read_float(s, at);
    Read {
        value: Some(a.value),
        at: a.at,
    }
}

// none
fn read_missing(s: &[u8], at: usize) -> Read<Option<f64>>
    ensures { got s.now result.value result.at
        ≡ map to_missing (form missing_form (rest s.now at)) }
{
    Read {
        value: None,
        at: read_bytes(s, at, b"none"),
    }
}

// h or none
fn read_exponent(s: &[u8], at: usize) -> Read<Option<f64>>
    ensures { got s.now result.value result.at
        ≡ map to_exponent (form exponent_form (rest s.now at)) }
{
    read_given(s, at).or(read_missing(s, at), s)
}

// (kernel (c h h h) (sigma h) (w h) (alpha h)) or (alpha none), and a newline
pub fn read_kernel(s: &[u8], at: usize) -> Read<FileKernel>
    ensures { got s.now result.value result.at ≡ file_line (rest s.now at) }
{
    let x = read_float(s, read_bytes(s, at, b"(kernel (c "));
    let y = read_float(s, read_bytes(s, x.at, b" "));
    let z = read_float(s, read_bytes(s, y.at, b" "));
    let g = read_float(s, read_bytes(s, z.at, b") (sigma "));
    let w = read_float(s, read_bytes(s, g.at, b") (w "));
    let a = read_exponent(s, read_bytes(s, w.at, b") (alpha "));
    let file = FileKernel {
        x: x.value,
        y: y.value,
        z: z.value,
        sigma: g.value,
        w: w.value,
        exponent: a.value,
    };
    Read {
        value: file,
        at: read_bytes(s, a.at, b"))\n"),
    }
}

// Reads all lines once; no more are asked for than there are bytes. A file with a bad line is no error here, since it is
// answered of too: `convert` refuses it.
// (A `while`, since its two tests are one end: a `for` over the count would leave at two places.)
pub fn scan_lines(s: &[u8], default: f64) -> Scan
    ensures lines_value { result.lines ≡ length (filed s.now) }
    ensures same_value { result.same ≡ all_alike_lem default (filed s.now) }
    ensures ended_value { result.ended ≡ all_lines s.now }
{
    let mut lines = 0;
    let mut same = true;
    let mut at = 0;
    while at < s.len() && lines < s.len() {
        let line = read_kernel(s, at);
        same = same & is_alike(line.value, default);
        at = line.at;
        lines += 1;
    }
    let ended = at == s.len();
    Scan { lines, same, ended }
}
