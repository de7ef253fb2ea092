// The reader: a pass over all bytes that changes nothing and finds the refusal, and then the pass that writes.
ghost use Rattle.std.specs.Prelude.{◌≡◌, true, ◌&&◌, ◌||◌, ◌+◌, ◌*◌, ◌≤◌, ltb, leb, length, MatchOption, ◌≢◌};
ghost use Rattle.std.proofs.lemmas.List.Edits.{sets};
ghost use Rattle.base.specs.Answers.{done, passed};
ghost use Rattle.layout.specs.After.{after};
ghost use Rattle.layout.specs.Layout.{width, coords_from, corners_from};
ghost use Rattle.layout.specs.Runs.{write};
ghost use Rattle.layout.specs.Soundness.{store_check};
ghost use Rattle.mesh.specs.Checks.{vertex_limit, face_limit, all_below};
ghost use Rattle.store.specs.Calls.{open_floats, open_words};
ghost use Rattle.text.specs.Text.{rest, lost};
ghost use Rattle.script.specs.Lines.{vert_line, face_line, put_line};
ghost use Rattle.reader.specs.ReadOf.{lines_from, lines_to, coords_in, corners_in, places_in, layers_in, puts_on, played, script_check, load_step};
ghost use Rattle.reader.specs.Answers.{loaded};
ghost use Rattle.reader.specs.ReadLaws.{Ends};
ghost use Rattle.reader.specs.StepLaws.{verdict, script_from};

use crate::lines::{read_face, read_open, read_put, read_vert, skip_vert};
use base::refusal::Refusal;
use forms::line::Head;
use layout::offsets::{COORDS, CORNERS, LAYERS};
use layout::runs::fill;
use mesh::check::{FACE_LIMIT, VERTEX_LIMIT};
use store::put::put_sound;
use text::read::Read;

// What was read: vertices, faces, lines of puts.
#[derive(Clone, Copy)]
pub struct Loaded {
    pub verts: u32,
    pub faces: u32,
    pub puts: u64,
}

// The position after n lines of vertices.
fn check_verts(s: &[u8], at: usize, n: usize) -> usize
    ensures { rest s.now result ≡ (lines_from vert_line n (rest s.now at)).text }
{
    let mut k = at;
    for i in 0..n {
        k = skip_vert(s, k);
        if k > s.len() {
            return k;
        }
    }
    k
}

// Whether all corners of n lines of faces are below v, and the position after the lines. (No `Option`: a line that is
// none is refused once, by `check_puts`, which takes a position one past the end as it comes.)
fn check_faces(s: &[u8], at: usize, n: usize, v: u32) -> Read<bool>
    ensures at_value { rest s.now result.at ≡ (lines_from face_line n (rest s.now at)).text }
    ensures below_value { result.at ≤ length s.now
        → result.value ≡ all_below v (corners_in (lines_from face_line n (rest s.now at)).val) }
{
    let mut k = at;
    let mut below = true;
    for i in 0..n {
        let face = read_face(s, k);
        k = face.at;
        if k > s.len() {
            return Read {
                value: false,
                at: k,
            };
        }
        let [a, b, c] = face.value;
        below = below & (a < v) & (b < v) & (c < v);
    }
    Read {
        value: below,
        at: k,
    }
}

// How many lines of puts follow, and whether each names a place and each a layer.
#[derive(Clone, Copy)]
struct Puts {
    count: usize,
    placed: bool,
    layered: bool,
}

// These puts, if their lines end where the text does.
fn if_ended(s: &[u8], k: usize, puts: Puts) -> Option<Puts>
    ensures { MatchOption result (k ≢ length s.now) (λ p. (k ≡ length s.now) × (p ≡ puts)) }
{
    if k == s.len() { Some(puts) } else { None }
}

// The lines of puts from `at` on, if no others follow. There are no more of them than bytes.
#[tactic(auto, using(crate::proofs::PutTurns::puts_found))]
fn check_puts(s: &[u8], at: usize) -> Option<Puts>
    ensures { MatchOption result
        ((lines_to put_line (length s.now) (rest s.now at)).text ≡ lost)
        (λ p. Ends s.now at p.count p.placed p.layered) }
{
    let mut k = at;
    let mut placed = true;
    let mut layered = true;
    for count in 0..s.len() {
        if k >= s.len() {
            let puts = Puts {
                count,
                placed,
                layered,
            };
            return if_ended(s, k, puts);
        }
        let entry = read_put(s, k);
        k = entry.at;
        placed = placed & (entry.value.put.place < 32);
        layered = layered & (entry.value.layer < LAYERS);
    }
    let puts = Puts {
        count: s.len(),
        placed,
        layered,
    };
    if_ended(s, k, puts)
}

// The first of 2, 3, 4, 6 and 16 that applies to an opening, with all its corners below its count or not, in runs of
// so many floats and words, or to any of its puts.
#[tactic(auto, unfolding(crate::specs::StepLaws::verdict))]
fn check_limits(
    head: Head,
    below: bool,
    floats: usize,
    words: usize,
    puts: Puts,
) -> Result<(), Refusal>
    ensures { result ≡ verdict (ltb vertex_limit head.verts) (ltb face_limit head.faces) below
        (leb (coords_from + 3 * head.verts) floats) (leb (corners_from width + 3 * head.faces) words)
        puts.placed puts.layered }
{
    if head.verts > VERTEX_LIMIT {
        return Err(Refusal::Oversize);
    }
    if head.faces > FACE_LIMIT {
        return Err(Refusal::Oversize);
    }
    if !below {
        return Err(Refusal::LooseCorner);
    }
    if floats < COORDS + 3 * (head.verts as usize) {
        return Err(Refusal::ShortStore);
    }
    if words < CORNERS + 3 * (head.faces as usize) {
        return Err(Refusal::ShortStore);
    }
    if !puts.placed {
        return Err(Refusal::NoPlace);
    }
    if !puts.layered {
        return Err(Refusal::NoLayer);
    }
    Ok(())
}

// The coordinates of n lines into a store's floats; answers the position after them.
fn load_verts(floats: &mut [f64], s: &[u8], at: usize, n: usize) -> usize
    requires { coords_from + 3 * n ≤ length floats.old }
    ensures result_value { rest s.now result ≡ (lines_from vert_line n (rest s.now at)).text }
    ensures floats_after { floats.new ≡ sets floats.old coords_from
        (coords_in (lines_from vert_line n (rest s.now at)).val) }
{
    let mut k = at;
    for i in 0..n {
        let vertex = read_vert(s, k);
        let j = COORDS + 3 * i;
        let xyz = vertex.value;
        floats[j..j + 3].copy_from_slice(&xyz);
        k = vertex.at;
    }
    k
}

// The corners of n lines into a store's words; answers the position after them.
fn load_faces(words: &mut [u32], s: &[u8], at: usize, n: usize) -> usize
    requires { corners_from width + 3 * n ≤ length words.old }
    ensures result_value { rest s.now result ≡ (lines_from face_line n (rest s.now at)).text }
    ensures words_after { words.new ≡ sets words.old (corners_from width)
        (corners_in (lines_from face_line n (rest s.now at)).val) }
{
    let mut k = at;
    for i in 0..n {
        let face = read_face(s, k);
        let j = CORNERS + 3 * i;
        let corners = face.value;
        words[j..j + 3].copy_from_slice(&corners);
        k = face.at;
    }
    k
}

// The puts of n lines into a store with no fault, which each leaves so.
fn load_puts(floats: &mut [f64], words: &mut [u32], s: &[u8], at: usize, n: usize)
    requires { (store_check width floats.old words.old ≡ passed)
        × (places_in (lines_from put_line n (rest s.now at)).val ≡ true)
        × (layers_in (lines_from put_line n (rest s.now at)).val ≡ true) }
    ensures floats_after { floats.new ≡ (puts_on width (lines_from put_line n (rest s.now at)).val
        (after done floats.old words.old)).floats }
    ensures words_after { words.new ≡ (puts_on width (lines_from put_line n (rest s.now at)).val
        (after done floats.old words.old)).words }
{
    let mut k = at;
    for i in 0..n {
        let entry = read_put(s, k);
        let line = entry.value;
        put_sound(floats, words, line.put.place, line.put.kernel, line.layer);
        k = entry.at;
    }
}

// The radius, zeros and the coordinates of n lines; answers the position after them.
fn load_floats(floats: &mut [f64], s: &[u8], at: usize, radius: f64, n: usize) -> usize
    requires { coords_from + 3 * n ≤ length floats.old }
    ensures result_value { rest s.now result ≡ (lines_from vert_line n (rest s.now at)).text }
    ensures floats_after { floats.new ≡ write floats.old 0
        (open_floats radius (coords_in (lines_from vert_line n (rest s.now at)).val)) }
{
    floats[0] = radius;
    fill(floats, 1, COORDS - 1, 0.0);
    load_verts(floats, s, at, n)
}

// The counts, zeros and the corners of n lines; answers the position after them.
fn load_words(words: &mut [u32], s: &[u8], at: usize, verts: u32, faces: u32) -> usize
    requires { corners_from width + 3 * faces ≤ length words.old }
    ensures result_value { rest s.now result ≡ (lines_from face_line faces (rest s.now at)).text }
    ensures words_after { words.new ≡ write words.old 0
        (open_words width verts faces (corners_in (lines_from face_line faces (rest s.now at)).val)) }
{
    words[0] = verts;
    words[1] = faces;
    fill(words, 2, CORNERS - 2, 0);
    load_faces(words, s, at, faces as usize)
}

// The opening and n puts from position `at` on, once nothing is refused.
fn load(floats: &mut [f64], words: &mut [u32], s: &[u8], at: usize, head: Head, n: usize)
    requires { script_check width (script_from s.now head.radius head.verts head.faces n at)
        (length floats.old) (length words.old) ≡ passed }
    ensures floats_after { floats.new ≡ (played width floats.old words.old
        (script_from s.now head.radius head.verts head.faces n at)).floats }
    ensures words_after { words.new ≡ (played width floats.old words.old
        (script_from s.now head.radius head.verts head.faces n at)).words }
{
    let a = load_floats(floats, s, at, head.radius, head.verts as usize);
    let b = load_words(words, s, a, head.verts, head.faces);
    load_puts(floats, words, s, b, n);
}

// Makes two runs the store that lines describe: an opening, its vertices and faces, and puts.
pub fn read_store(floats: &mut [f64], words: &mut [u32], s: &[u8]) -> Result<Loaded, Refusal>
    ensures { after (loaded result) floats.new words.new
        ≡ load_step width floats.old words.old s.now }
{
    let h = read_open(s, 0);
    let head = h.value;
    let a = check_verts(s, h.at, head.verts as usize);
    let b = check_faces(s, a, head.faces as usize, head.verts);
    let Some(puts) = check_puts(s, b.at) else {
        return Err(Refusal::BadLine);
    };
    check_limits(head, b.value, floats.len(), words.len(), puts)?;
    load(floats, words, s, h.at, head, puts.count);
    Ok(Loaded {
        verts: head.verts,
        faces: head.faces,
        puts: puts.count as u64,
    })
}
