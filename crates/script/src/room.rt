// How many bytes a store's lines take, and whether bytes are enough for them. The length of all lines takes a pass over
// the corners. It is not needed where the bytes are as many as the lines of so many vertices and faces have at most,
// which is what the hosts lend.
// Internal: a function with a `requires` is called by proved code alone.
ghost use Rattle.std.specs.Prelude.{◌≡◌, List, ◌+◌, ◌-◌, ◌*◌, ◌<◌, ◌≤◌, leb, length, Float};
ghost use Rattle.layout.specs.Layout.{width, place_limit, corners_from};
ghost use Rattle.layout.specs.SoundLaws.{Fine};
ghost use Rattle.mesh.specs.Checks.{vertex_limit, face_limit};
ghost use Rattle.text.specs.Print.{decimal_length};
ghost use Rattle.text.specs.Form.{print, ◌&◌};
ghost use Rattle.script.specs.Lines.{face_line};
ghost use Rattle.script.specs.Written.{put_row, put_rows, face_rows, lines_of, written};
ghost use Rattle.script.specs.MostBytes.{most_bytes};

use layout::offsets::{CORNERS, LAYER, PLACES, STATE, WIDTH};
use text::write::decimal_length;

// The most bytes of 32 puts: 142 each, the digits of the places, and two digits for each layer.
const MOST_OF_PUTS: usize = 142 * 32 + 54 + 2 * 32;

// The bytes of a face's line.
#[tactic(auto, using(crate::specs::LineLaws::face_bytes))]
fn face_length(a: u32, b: u32, c: u32) -> usize
    ensures { (result ≡ length (print face_line (a & b & c & tt))) × (result ≤ 70) }
{
    10 + decimal_length(a as u64) + decimal_length(b as u64) + decimal_length(c as u64)
}

// The bytes of n faces' lines.
#[tactic(auto, using(crate::specs::LineLaws::faces_left, crate::specs::LineLaws::no_faces_left))]
fn faces_length(words: &[u32], n: usize) -> usize
    requires { (n ≤ 4294967295) × (corners_from width + 3 * n ≤ length words.now) }
    ensures { (result ≡ length (face_rows width words.now n 0)) × (result ≤ 70 * n) }
{
    let mut sum: usize = 0;
    for i in 0..n {
        let j = CORNERS + 3 * i;
        sum += face_length(words[j], words[j + 1], words[j + 2]);
    }
    sum
}

// The bytes of a place's line.
#[tactic(auto, using(crate::specs::LineLaws::row_empty, crate::specs::LineLaws::row_bytes))]
fn row_length(words: &[u32], i: usize) -> usize
    requires { (i < place_limit) × (corners_from width ≤ length words.now) }
    ensures upper_bound { result ≤ 182 }
    ensures value { (fs : List Float) → result ≡ length (put_row width fs words.now i) }
{
    if words[STATE + WIDTH * i] == 0 {
        return 0;
    }
    142 + decimal_length(i as u64) + decimal_length(words[LAYER + WIDTH * i] as u64)
}

// The bytes of all places' lines.
#[tactic(auto, using(crate::specs::LineLaws::puts_left, crate::specs::LineLaws::no_puts_left))]
fn puts_length(words: &[u32]) -> usize
    requires { corners_from width ≤ length words.now }
    ensures upper_bound { result ≤ 5824 }
    ensures value { (fs : List Float) → result ≡ length (put_rows width fs words.now place_limit 0) }
{
    let mut sum: usize = 0;
    for i in 0..PLACES {
        sum += row_length(words, i);
    }
    sum
}

// The bytes of the opening's line and of the vertices'.
fn head_length(verts: u32, faces: u32) -> usize
    requires { verts ≤ vertex_limit }
    ensures { (result ≡ 51 + decimal_length verts + decimal_length faces + 58 * verts) × (result ≤ 60817499) }
{
    51 + decimal_length(verts as u64) + decimal_length(faces as u64) + 58 * (verts as usize)
}

// The bytes of all lines.
#[tactic(auto, using(crate::specs::LineLaws::lines_bytes))]
fn lines_length(words: &[u32], verts: u32, faces: u32) -> usize
    requires { (verts ≤ vertex_limit) × (faces ≤ face_limit) × (corners_from width + 3 * faces ≤ length words.now) }
    ensures { (fs : List Float) → result ≡ length (lines_of width fs words.now verts faces) }
{
    head_length(verts, faces) + faces_length(words, faces as usize) + puts_length(words)
}

// The digits of the last vertex; without vertices there is no corner, and any number does.
fn corner_length(verts: u32) -> usize
    ensures { (result ≡ decimal_length (verts - 1)) × (result ≤ 20) }
{
    decimal_length(verts.saturating_sub(1) as u64)
}

// The most bytes that the lines of a sound store of so many vertices and faces take.
fn most_bytes(verts: u32, faces: u32) -> usize
    requires { (verts ≤ vertex_limit) × (faces ≤ face_limit) }
    ensures { result ≡ most_bytes verts faces }
{
    let face = 10 + 3 * corner_length(verts);
    head_length(verts, faces) + face * (faces as usize) + MOST_OF_PUTS
}

// Whether so many bytes are enough for the lines of the sound store that has these words. Where they are enough for any
// store of as many vertices and faces, the length of its lines is not worked out.
#[tactic(auto, using(crate::specs::MostBytes::lines_most))]
pub fn has_room(words: &[u32], room: usize) -> bool
    requires { (fs : List Float) × Fine width fs words.now }
    ensures { (fs : List Float) → Fine width fs words.now
        → result ≡ leb (length (written width fs words.now)) room }
{
    most_bytes(words[0], words[1]) <= room || lines_length(words, words[0], words[1]) <= room
}
