// A call on the store, and its answer written as a line from the start of a run of 512 bytes; each answers the line's
// length. Each matches by itself: a function of all would take the writing of the values as a closure, and its contract
// would have to say when that may be called and what it writes, which is longer than the match.
ghost use Rattle.std.specs.Prelude.{◌≡◌, [], ◌∷◌, ◌≤◌};
ghost use Rattle.base.specs.Refusals.{number};
ghost use Rattle.text.specs.Print.{Wrote};
ghost use Rattle.layout.specs.Layout.{width};
ghost use Rattle.layout.specs.Layers.{all_layers};
ghost use Rattle.store.specs.Calls.{open_step, clear_step, reweigh_step};
ghost use Rattle.store.specs.Puts.{put_step_lem};
ghost use Rattle.advance.specs.Steps.{advance_step};
ghost use Rattle.readings.specs.Readings.{read_step};
ghost use Rattle.readings.specs.Readings;
ghost use Rattle.calls.specs.Texts.{no_text, open_text, put_text, density_text, advance_text, clear_text, reweigh_text, report_text};

use advance::advance::advance;
use answers::{
    write_advance, write_clear, write_density, write_no, write_open, write_put, write_report,
    write_reweigh,
};
use base::refusal::Refusal;
use density::convention::Convention;
use kernel::kernel::Kernel;
use readings::at_point::density;
use reports::reports::report;
use store::edit::{clear, reweigh};
use store::open::open;
use store::put::put;
use text::write::write_bytes;

// The program puts into this layer, and reads with all sixteen.
const LAYER: u32 = 0;

const ALL_LAYERS: u32 = 65535;

// The newline after a text that ends at `at`.
fn newline(out: &mut [u8; 512], at: usize) -> usize
    requires { at ≤ 255 }
    ensures upper_bound { result ≤ 256 }
    ensures wrote { Wrote out.old at (10 ∷ []) result out.new }
{
    write_bytes(out, at, b"\n")
}

// (no N)
pub fn answer_no(out: &mut [u8; 512], refusal: Refusal) -> usize
    ensures upper_bound { result ≤ 256 }
    ensures wrote { Wrote out.old 0 (no_text (number refusal)) result out.new }
{
    let at = write_no(out, 0, u32::from(refusal));
    newline(out, at)
}

// Opens the store.
pub fn answer_open(
    floats: &mut [f64],
    words: &mut [u32],
    radius: f64,
    xyz: &[f64],
    corners: &[u32],
    out: &mut [u8; 512],
) -> usize
    ensures upper_bound { result ≤ 256 }
    ensures floats_after { floats.new ≡ (open_step width floats.old words.old radius
        xyz.now corners.now).floats }
    ensures words_after { words.new ≡ (open_step width floats.old words.old radius
        xyz.now corners.now).words }
    ensures wrote { Wrote out.old 0
        (open_text (open_step width floats.old words.old radius xyz.now
        corners.now).reply) result out.new }
{
    match open(floats, words, radius, xyz, corners) {
        Ok(mesh) => {
            let at = write_open(out, 0, mesh.verts, mesh.faces);
            newline(out, at)
        }
        Err(refusal) => answer_no(out, refusal),
    }
}

// Puts a kernel, in layer 0.
pub fn answer_put(
    floats: &mut [f64],
    words: &mut [u32],
    place: u32,
    k: Kernel,
    out: &mut [u8; 512],
) -> usize
    ensures upper_bound { result ≤ 256 }
    ensures floats_after { floats.new ≡ (put_step_lem width floats.old words.old place k 0).floats }
    ensures words_after { words.new ≡ (put_step_lem width floats.old words.old place k 0).words }
    ensures wrote { Wrote out.old 0
        (put_text place (put_step_lem width floats.old words.old place k 0).reply) result
        out.new }
{
    match put(floats, words, place, k, LAYER) {
        Ok(placed) => {
            let at = write_put(out, 0, place, placed.pieces, placed.steps);
            newline(out, at)
        }
        Err(refusal) => answer_no(out, refusal),
    }
}

// Clears a place.
pub fn answer_clear(floats: &mut [f64], words: &mut [u32], place: u32, out: &mut [u8; 512]) -> usize
    ensures upper_bound { result ≤ 256 }
    ensures floats_after { floats.new ≡ (clear_step width floats.old words.old place).floats }
    ensures words_after { words.new ≡ (clear_step width floats.old words.old place).words }
    ensures wrote { Wrote out.old 0
        (clear_text place (clear_step width floats.old words.old place).reply) result
        out.new }
{
    match clear(floats, words, place) {
        Ok(()) => {
            let at = write_clear(out, 0, place);
            newline(out, at)
        }
        Err(refusal) => answer_no(out, refusal),
    }
}

// Reweighs the kernel of a place.
pub fn answer_reweigh(
    floats: &mut [f64],
    words: &mut [u32],
    place: u32,
    weight: f64,
    out: &mut [u8; 512],
) -> usize
    ensures upper_bound { result ≤ 256 }
    ensures floats_after { floats.new ≡ (reweigh_step width floats.old
        words.old place weight).floats }
    ensures words_after { words.new ≡ (reweigh_step width floats.old
        words.old place weight).words }
    ensures wrote { Wrote out.old 0
        (reweigh_text place (reweigh_step width floats.old words.old place weight).reply) result
        out.new }
{
    match reweigh(floats, words, place, weight) {
        Ok(()) => {
            let at = write_reweigh(out, 0, place);
            newline(out, at)
        }
        Err(refusal) => answer_no(out, refusal),
    }
}

// Does work.
pub fn answer_advance(
    floats: &mut [f64],
    words: &mut [u32],
    budget: u64,
    out: &mut [u8; 512],
) -> usize
    ensures upper_bound { result ≤ 256 }
    ensures floats_after { floats.new ≡ (advance_step width floats.old
        words.old budget).floats }
    ensures words_after { words.new ≡ (advance_step width floats.old words.old budget).words }
    ensures wrote { Wrote out.old 0
        (advance_text (advance_step width floats.old words.old budget).reply) result
        out.new }
{
    match advance(floats, words, budget) {
        Ok(steps) => {
            let at = write_advance(out, 0, steps.done, steps.left);
            newline(out, at)
        }
        Err(refusal) => answer_no(out, refusal),
    }
}

// Reads the density, with all sixteen layers.
pub fn answer_density(
    floats: &[f64],
    words: &[u32],
    v: Convention,
    point: [f64; 3],
    out: &mut [u8; 512],
) -> usize
    ensures upper_bound { result ≤ 256 }
    ensures wrote { Wrote out.old 0
        (density_text (read_step width floats.now words.now all_layers
        (Readings.density v point)).reply) result out.new }
{
    match density(floats, words, v, ALL_LAYERS, point) {
        Ok(x) => {
            let at = write_density(out, 0, x);
            newline(out, at)
        }
        Err(refusal) => answer_no(out, refusal),
    }
}

// Reports the masses, with all sixteen layers.
pub fn answer_report(floats: &[f64], words: &[u32], v: Convention, out: &mut [u8; 512]) -> usize
    ensures upper_bound { result ≤ 256 }
    ensures wrote { Wrote out.old 0
        (report_text (read_step width floats.now words.now all_layers (Readings.report v)).reply) result
        out.new }
{
    match report(floats, words, v, ALL_LAYERS) {
        Ok(t) => {
            let at = write_report(out, 0, t.mass, t.filled, t.pieces, t.error);
            newline(out, at)
        }
        Err(refusal) => answer_no(out, refusal),
    }
}
