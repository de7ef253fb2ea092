// Steps of work: faces integrated, piece by piece, the lowest place first. The floats and words here are those of a
// store's places, which stand before its mesh. They are slices and no arrays of COORDS floats and CORNERS words: the
// library cuts an array off a run as an Option, whose None would be a branch of `spend_all` that is never taken.
// Internal: a function with a `requires` is called by proved code alone.
ghost use Rattle.std.specs.Prelude.{◌≡◌, ◌+◌, ◌-◌, ◌*◌, ◌≤◌, ◌<◌, get_or, length, set};
ghost use Rattle.std.specs.Float.{nan};
ghost use Rattle.base.specs.Loops.{iterate};
ghost use Rattle.mesh.specs.Checks.{face_limit};
ghost use Rattle.mesh.specs.Meshes.{face_count_of, triangles_of};
ghost use Rattle.volume.specs.Volume.{volume_from};
ghost use Rattle.layout.specs.Layout.{centre_at, width, place_limit, pieces_from, coords_from, corners_from, status_of};
ghost use Rattle.layout.specs.Layout.{finished_of, done_of};
ghost use Rattle.layout.specs.SoundLaws.{Ready, Worded};
ghost use Rattle.advance.specs.Steps.{work, one_face, worked_from, standing, place_work, stored, places_run};

use layout::left::pieces;
use layout::offsets::{
    DONE, FINISHED, KERNEL, KERNEL_SIZE, PIECE, PIECES_SIZE, PLACES, STATE, VOLUME, WIDTH,
};
use layout::runs::word;
use mesh::triangles::Mesh;
use mesh::vectors::V3;
use volume::faces::volume_from;

// Where the work on a place stands, and the steps still to spend.
#[derive(Clone, Copy)]
pub struct Ran {
    pub finished: usize,
    pub done: usize,
    pub budget: usize,
}

// Brings the volume of the piece whose three floats stand at `at` on from face `done` by k faces.
fn chunk(floats: &mut [f64], mesh: Mesh, c: V3, at: usize, done: usize, k: usize)
    requires { (at + 2 < length floats.old) × (done + k ≤ face_count_of mesh) }
    ensures { floats.new ≡ set floats.old (at + 2)
        (volume_from (triangles_of mesh.entry) c (get_or floats.old at nan) done (done + k)
        (get_or floats.old (at + 2) nan)) }
{
    let sigma = floats[at];
    let sum = floats[at + VOLUME];
    floats[at + VOLUME] = volume_from(sum, mesh, c, sigma, done, done + k);
}

// Spends up to `budget` steps at place i, no further than the end of the current piece; c is the place's centre.
fn run_piece(floats: &mut [f64], mesh: Mesh, i: usize, c: V3, start: Ran) -> Ran
    requires fact_1 { coords_from ≤ length floats.old }
    requires fact_2 { Ready (face_count_of mesh) i (start.finished + 1) start.finished start.done }
    ensures { work floats.new result.finished result.done result.budget
        ≡ iterate (one_face (triangles_of mesh.entry) c (face_count_of mesh.entry) (pieces_from i)
        (start.finished + 1)) start.budget
        (work floats.old start.finished start.done start.budget) }
{
    let finished = start.finished;
    let done = start.done;
    let room = mesh.face_count() - done;
    let k = start.budget.min(room);
    let at = PIECE + PIECES_SIZE * i + 3 * finished;
    chunk(floats, mesh, c, at, done, k);
    let budget = start.budget - k;
    if k == room {
        return Ran {
            finished: finished + 1,
            done: 0,
            budget,
        };
    }
    Ran {
        finished,
        done: done + k,
        budget,
    }
}

// Spends up to `budget` steps at place i, which has `count` pieces. (A `while`, since each turn answers how far it
// came.)
fn run_place(floats: &mut [f64], mesh: Mesh, i: usize, count: usize, start: Ran) -> Ran
    requires fact_1 { coords_from ≤ length floats.old }
    requires fact_2 { Ready (face_count_of mesh) i count start.finished start.done }
    ensures fact_1 { work floats.new result.finished result.done result.budget
        ≡ worked_from (triangles_of mesh.entry) (centre_at floats.old i) (face_count_of mesh.entry) i count
        (work floats.old start.finished start.done start.budget) }
    ensures fact_2 { (result.finished ≤ count) × (result.done ≤ face_count_of mesh.entry) }
{
    let at = KERNEL_SIZE * i;
    let c = V3 {
        x: floats[KERNEL + at],
        y: floats[KERNEL + 1 + at],
        z: floats[KERNEL + 2 + at],
    };
    let mut r = start;
    while r.finished < count && r.budget > 0 {
        r = run_piece(floats, mesh, i, c, r);
    }
    r
}

// Spends up to `budget` steps at place i, and answers how many are over.
fn spend(floats: &mut [f64], words: &mut [u32], mesh: Mesh, i: usize, budget: usize) -> usize
    requires fact_1 { (coords_from ≤ length floats.old) × (corners_from width ≤ length words.old)
        × (face_count_of mesh ≤ face_limit) }
    requires fact_2 { Ready (face_count_of mesh) i (status_of width words.old i - 1)
        (finished_of width words.old i) (done_of width words.old i) }
    ensures { standing floats.new words.new result
        ≡ stored width words.old i
        (place_work width (triangles_of mesh.entry) (face_count_of mesh.entry) i
        (standing floats.old words.old budget)) }
{
    let at = WIDTH * i;
    let count = pieces(words[STATE + at]);
    let start = Ran {
        finished: word(words, FINISHED + at),
        done: word(words, DONE + at),
        budget,
    };
    let r = run_place(floats, mesh, i, count, start);
    words[FINISHED + at] = r.finished as u32;
    words[DONE + at] = r.done as u32;
    r.budget
}

// Spends up to `budget` steps, the lowest place first, and answers how many are over.
pub fn run_places(floats: &mut [f64], words: &mut [u32], mesh: Mesh, budget: usize) -> usize
    requires fact_1 { coords_from ≤ length floats.old }
    requires fact_2 { Worded width words.old (face_count_of mesh) }
    ensures { standing floats.new words.new result
        ≡ places_run width (triangles_of mesh.entry) (face_count_of mesh.entry) place_limit
        (standing floats.old words.old budget) }
{
    let mut rest = budget;
    for i in 0..PLACES {
        rest = spend(floats, words, mesh, i, rest);
    }
    rest
}
