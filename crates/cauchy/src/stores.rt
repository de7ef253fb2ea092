// The store for C callers: two lent runs, floats and u32 words, in 01's layout. Each function states what
// C gets and every run that it may write: 01's number, 0 where the call is not refused, and values that are
// 0 where it is; a refused call changes nothing. The runs may have any length and hold anything.
//
// The host guarantees for every call: a run of n > 0 words is n initialised, aligned words that no one else
// writes meanwhile (a run of 0 words may be NULL); a run that is written overlaps no other run of the call;
// the floating-point state is the default one (nearest even, subnormals kept).
ghost use Rattle.std.specs.Prelude.{◌≡◌};
ghost use Rattle.layout.specs.Layout.{width};
ghost use Rattle.store.specs.Calls.{open_step, clear_step, reweigh_step};
ghost use Rattle.carry.specs.Carry.{carry_step};
ghost use Rattle.store.specs.Puts.{put_step_lem};
ghost use Rattle.advance.specs.Steps.{advance_step};
ghost use Rattle.adopt.specs.Adopt.{adopt_step};
ghost use Rattle.squeeze.specs.Squeeze.{squeeze_step};
ghost use Rattle.mass.specs.Calls.{point_values};
ghost use Rattle.readings.specs.Readings.{read_step};
ghost use Rattle.readings.specs.Readings;
ghost use Rattle.readings.specs.Finished.{finished_step};
ghost use Rattle.page.specs.Page.{page_step};
ghost use Rattle.crossing.specs.Volumes.{value_from};
ghost use Rattle.crossing.specs.Crossing.{lent, lent_from, number_from};
ghost use Rattle.crossing.specs.StoreCrossing.{crossed, across, opened_from, placed_from, steps_from, adopted_from, squeezed_from, convention_of, store_report_from, finished_from, listed_from, track_from, printed_from};

use adopt::adopt::adopt;
use advance::advance::advance;
use carry::carry::carry;
use crossing::meshes::number_of;
use crossing::stores::{
    CauchyAdopted, CauchyBytes, CauchyConvention, CauchyFinished, CauchyListed, CauchyOpened,
    CauchyPlaced, CauchySqueezed, CauchySteps, CauchyStoreReport, CauchyTrack,
};
use crossing::volumes::CauchyValue;
use kernel::kernel::Kernel;
use mesh::vectors::V3;
use page::call::page;
use readings::at_point::density;
use reports::finished::finished;
use reports::listing::list;
use reports::reports::report;
use squeeze::squeeze::squeeze;
use store::edit::{clear, reweigh};
use store::open::open;
use store::put::put;
use track::tracks::track;

// Makes two runs a store of this radius and mesh, every place empty: 1, 2, 3, or 4 below 1,761 + 3V floats or
// 130 + 3F words. What the runs held does not matter, and words past these stay.
#[unsafe(no_mangle)]
pub extern "C" fn cauchy_store_open(
    floats: &mut [f64],
    words: &mut [u32],
    radius: f64,
    xyz: &[f64],
    faces: &[u32],
) -> CauchyOpened
    ensures { crossed result floats.new words.new
        ≡ across opened_from (open_step width floats.old words.old radius xyz.now
        faces.now) }
{
    CauchyOpened::from(open(floats, words, radius, xyz, faces))
}

// Carries a store of the form before layers, with three words to a place, into other runs as a store of today's form,
// every kernel in layer 0: 4 below 1,761 + 3V floats in either store, 98 + 3F old words or 130 + 3F new ones; 5 of the
// old store. The old runs are only read; what the new ones held does not matter, and words past these stay.
#[unsafe(no_mangle)]
pub extern "C" fn cauchy_store_carry(
    old_floats: &[f64],
    old_words: &[u32],
    floats: &mut [f64],
    words: &mut [u32],
) -> CauchyOpened
    ensures { crossed result floats.new words.new
        ≡ across opened_from (carry_step old_floats.now old_words.now floats.old
        words.old) }
{
    CauchyOpened::from(carry(old_floats, old_words, floats, words))
}

// Puts a kernel, in metres, into a place, whatever it held, in a layer from 0 to 15: 4, 5, 6 or 16.
#[unsafe(no_mangle)]
pub extern "C" fn cauchy_store_put(
    floats: &mut [f64],
    words: &mut [u32],
    place: u32,
    k: Kernel,
    layer: u32,
) -> CauchyPlaced
    ensures { crossed result floats.new words.new
        ≡ across placed_from (put_step_lem width floats.old words.old place k layer) }
{
    CauchyPlaced::from(put(floats, words, place, k, layer))
}

// Empties a place; answers 0, 4, 5, 6 or 7.
#[unsafe(no_mangle)]
pub extern "C" fn cauchy_store_clear(floats: &mut [f64], words: &mut [u32], place: u32) -> u32
    ensures { crossed result floats.new words.new
        ≡ across number_from (clear_step width floats.old words.old place) }
{
    number_of(clear(floats, words, place))
}

// Gives the kernel of a place the weight w, its work kept; answers 0, 4, 5, 6 or 7.
#[unsafe(no_mangle)]
pub extern "C" fn cauchy_store_reweigh(
    floats: &mut [f64],
    words: &mut [u32],
    place: u32,
    w: f64,
) -> u32
    ensures { crossed result floats.new words.new
        ≡ across number_from (reweigh_step width floats.old words.old place w) }
{
    number_of(reweigh(floats, words, place, w))
}

// Squeezes the vertices that no face uses out of a store: 4 or 5.
#[unsafe(no_mangle)]
pub extern "C" fn cauchy_store_squeeze(floats: &mut [f64], words: &mut [u32]) -> CauchySqueezed
    ensures { crossed result floats.new words.new
        ≡ across squeezed_from (squeeze_step width floats.old words.old) }
{
    CauchySqueezed::from(squeeze(floats, words))
}

// Does up to `budget` steps of the work left, one face of one piece each: 4 or 5. A process killed inside
// the call leaves its runs half written.
#[unsafe(no_mangle)]
pub extern "C" fn cauchy_store_advance(
    floats: &mut [f64],
    words: &mut [u32],
    budget: u64,
) -> CauchySteps
    ensures { crossed result floats.new words.new
        ≡ across steps_from (advance_step width floats.old words.old budget) }
{
    CauchySteps::from(advance(floats, words, budget))
}

// Takes a filled place of another store of the same body into a place of this one, whatever that held: 4 or 5 of either
// store, 6 of either place, 7 where the other's place is empty. Where the bodies differ nothing is changed. The other
// runs are only read.
#[unsafe(no_mangle)]
pub extern "C" fn cauchy_store_adopt(
    floats: &mut [f64],
    words: &mut [u32],
    place: u32,
    other_floats: &[f64],
    other_words: &[u32],
    other_place: u32,
) -> CauchyAdopted
    ensures { crossed result floats.new words.new
        ≡ across adopted_from (adopt_step width floats.old words.old place
        other_floats.now other_words.now other_place) }
{
    CauchyAdopted::from(adopt(floats, words, place, other_floats, other_words, other_place))
}

// A reading sees the places whose layers are in its set `layers`, bit l for layer l; 16 where a bit from 16 on is set.
//
// The density at a point, in metres: 4, 5, 16, or 8 where the kind is mass and the target above 0.
#[unsafe(no_mangle)]
pub extern "C" fn cauchy_store_density(
    floats: &[f64],
    words: &[u32],
    convention: CauchyConvention,
    layers: u32,
    point: V3,
) -> CauchyValue
    ensures { result ≡ value_from (read_step width floats.now words.now layers
        (Readings.density (convention_of convention) (point_values point))).reply }
{
    CauchyValue::from(density(
        floats,
        words,
        convention.into(),
        layers,
        [point.x, point.y, point.z],
    ))
}

// The report of the store: 4, 5, 16 or 8.
#[unsafe(no_mangle)]
pub extern "C" fn cauchy_store_report(
    floats: &[f64],
    words: &[u32],
    convention: CauchyConvention,
    layers: u32,
) -> CauchyStoreReport
    ensures { result ≡ store_report_from (read_step width floats.now words.now layers
        (Readings.report (convention_of convention))).reply }
{
    CauchyStoreReport::from(report(floats, words, convention.into(), layers))
}

// The report of those places in the layers that have no work left, while others may: 4, 5 or 16, never 8.
#[unsafe(no_mangle)]
pub extern "C" fn cauchy_store_finished(
    floats: &[f64],
    words: &[u32],
    convention: CauchyConvention,
    layers: u32,
) -> CauchyFinished
    ensures { result ≡ finished_from (finished_step width floats.now words.now layers
        (convention_of convention)) }
{
    CauchyFinished::from(finished(floats, words, convention.into(), layers))
}

// Writes the store's pieces as kernels of six floats each, weights rescaled: 4, 5, 16, 8 or 9. Floats of `out`
// past them stay.
#[unsafe(no_mangle)]
pub extern "C" fn cauchy_store_list(
    floats: &[f64],
    words: &[u32],
    convention: CauchyConvention,
    layers: u32,
    out: &mut [f64],
) -> CauchyListed
    ensures { lent result out.new
        ≡ lent_from listed_from (read_step width floats.now words.now layers
        (Readings.list (convention_of convention) out.old)) }
{
    CauchyListed::from(list(floats, words, convention.into(), layers, out))
}

// Writes the density at each point of a track, three coordinates a point, in point order: 4, 5, 16, 8 or 14. Floats of
// `out` past them stay.
#[unsafe(no_mangle)]
pub extern "C" fn cauchy_store_track(
    floats: &[f64],
    words: &[u32],
    convention: CauchyConvention,
    layers: u32,
    points: &[f64],
    out: &mut [f64],
) -> CauchyTrack
    ensures { lent result out.new
        ≡ lent_from track_from (read_step width floats.now words.now layers
        (Readings.track (convention_of convention) points.now out.old)) }
{
    CauchyTrack::from(track(floats, words, convention.into(), layers, points, out))
}

// Writes the wall page of a store with no work left: 4, 5, 8, 17 or 18. Bytes of `out` past it stay.
#[unsafe(no_mangle)]
pub extern "C" fn cauchy_store_page(floats: &[f64], words: &[u32], out: &mut [u8]) -> CauchyBytes
    ensures { lent result out.new
        ≡ printed_from (page_step width floats.now words.now out.old) }
{
    CauchyBytes::from(page(floats, words, out))
}
