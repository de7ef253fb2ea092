// The densities of a store along a track of points.
ghost use Rattle.std.specs.Prelude.{◌≡◌, map, ◌*◌, ◌≤◌, length};
ghost use Rattle.base.specs.Answers.{counted_as, outcome};
ghost use Rattle.layout.specs.Layout.{width, place_limit};
ghost use Rattle.layout.specs.Runs.{write};
ghost use Rattle.readings.specs.Readings.{bare, held_all_lem, densities_along, track_check, read_step};
ghost use Rattle.readings.specs.Readings;

use along::along::densities;
use base::refusal::Refusal;
use density::convention::Convention;
use readings::places::Places;
use readings::seen::seen_places;
use readings::shared::{by_mass, check_read};

// Refusal 14 of a track of so many coordinates, with room for so many densities.
#[tactic(auto, unfolding(readings::specs::Readings::track_check))]
fn check_track(coords: usize, room: usize) -> Result<(), Refusal>
    ensures { result ≡ track_check coords room }
{
    let points = coords / 3;
    if coords % 3 == 0 && points <= 4096 && points <= room {
        return Ok(());
    }
    Err(Refusal::BadTrack)
}

// Writes the densities at the first `count` points, by a scale, side by side: the rescaled pieces are laid down once.
fn side_by_side(seen: Places, s: f64, points: &[f64], count: usize, out: &mut [f64])
    requires { (3 * count ≤ length points.now) × (count ≤ length out.old) }
    ensures { out.new ≡ write out.old 0 (densities_along s
        (map bare (held_all_lem width seen.entry.floats.now seen.entry.words.now place_limit)) points.now count) }
{
    let n = seen.pieces();
    let mut kernels = [0.0; 3072];
    seen.write_list(s, &mut kernels);
    densities(&kernels, n, points, count, out);
}

// Writes the densities at the first `count` points, by a scale, each as a single reading sums it. (By the point's
// number, since it reads one run and writes another in step.)
fn one_by_one(seen: Places, s: f64, points: &[f64], count: usize, out: &mut [f64])
    requires { (3 * count ≤ length points.now) × (count ≤ length out.old) }
    ensures { out.new ≡ write out.old 0 (densities_along s
        (map bare (held_all_lem width seen.entry.floats.now seen.entry.words.now place_limit)) points.now count) }
{
    for i in 0..count {
        let o = 3 * i;
        out[i] = seen.density(s, [points[o], points[o + 1], points[o + 2]]);
    }
}

// Writes the densities at the first `count` points, by a scale. The rescaled weights are worked once for the track (02,
// L1): of one point each where it is added, of more the rescaled pieces are laid down first. (Here and above the count
// stands beside the runs, as in the definition `densities_along`: with runs that are cut to length each clause would
// have to speak of their beginnings.)
fn trace(seen: Places, s: f64, points: &[f64], count: usize, out: &mut [f64])
    requires { (3 * count ≤ length points.now) × (count ≤ length out.old) }
    ensures { out.new ≡ write out.old 0 (densities_along s
        (map bare (held_all_lem width seen.entry.floats.now seen.entry.words.now place_limit)) points.now count) }
{
    if count < 2 {
        one_by_one(seen, s, points, count, out);
    } else {
        side_by_side(seen, s, points, count, out);
    }
}

// Writes the densities of the places that are seen by a scale, if the track is good.
fn track_points(seen: Places, s: f64, points: &[f64], out: &mut [f64]) -> Result<u32, Refusal>
    ensures { outcome (counted_as result) out.new ≡ Readings.tracking s
        (map bare (held_all_lem width seen.entry.floats.now seen.entry.words.now place_limit)) points.now out.old }
{
    check_track(points.len(), out.len())?;
    let count = points.len() / 3;
    trace(seen, s, points, count, out);
    Ok(count as u32)
}

// Writes the densities of the places in some layers at the points into a lent run, in point order, under a convention.
pub fn track(
    floats: &[f64],
    words: &[u32],
    v: Convention,
    layers: u32,
    points: &[f64],
    out: &mut [f64],
) -> Result<u32, Refusal>
    ensures { outcome (counted_as result) out.new
        ≡ read_step width floats.now words.now layers
        (Readings.track v points.now out.old) }
{
    check_read(floats, words, layers, by_mass(v))?;
    let seen = seen_places(words, layers);
    let places = Places {
        floats,
        words: &seen,
    };
    track_points(places, places.scale(v), points, out)
}
