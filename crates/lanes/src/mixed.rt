// The radial factors of a block whose radii lie on both sides of 0.1. The radii are parted first: those of at least 0.1
// to the front of an array, the others to its end. Each is put where it belongs and its place noted, so that no branch
// depends on its size: in a mesh without order the processor would guess such a branch wrong time and again. Then each
// part is worked by its own way alone, and the factors are fetched from where their radii were put.
// Internal: a function with a `requires` is called by proved code alone.
ghost use Rattle.std.specs.Prelude.{◌≡◌, true, false, cond, ℕ, ◌<◌, get_or, IfSome};
ghost use Rattle.std.specs.Float.Ieee.{le};
ghost use Rattle.base.specs.Constants.{tenth};
ghost use Rattle.radial.specs.Radial.{radial_g};
ghost use Rattle.lanes.specs.Factors.{Each};
ghost use Rattle.lanes.specs.Stages.{AllLow, Small, Parting, Gathered};

use crate::series::{not_small, series_from};
use crate::{Block, Scratch};
use arcs::arc_factors;

// a where t is at least 0.1, else b.
fn by_size(t: f64, a: usize, b: usize) -> usize
    ensures { result ≡ cond (le tenth t) a b }
{
    if t >= 0.1 { a } else { b }
}

// 0 where t is at least 0.1 or takes the series, else all ones.
fn not_sided(t: f64) -> u64
    ensures { result ≡ 0 → le tenth t ≡ false → Small t }
{
    if t >= 0.1 { 0 } else { not_small(t) }
}

// The radii parted in u, their places in `places`; answers how many are at least 0.1, or none where another does not
// take the series.
fn part(t: &Block, u: &mut Block, places: &mut [usize; 28]) -> Option<usize>
    ensures { IfSome result (Parting t.now u.new places.new) }
{
    let mut large = 0usize;
    let mut flag = 0u64;
    for i in 0..28usize {
        let a = t[i];
        let place = by_size(a, large, 27 + large - i);
        u[place] = a;
        places[i] = place;
        large = by_size(a, large + 1, large);
        flag = flag | not_sided(a);
    }
    if flag == 0 { Some(large) } else { None }
}

// Writes to g the elements of s at the places.
#[tactic(auto, using(crate::proofs::Laws::fills_all))]
fn gather(s: &Block, places: &[usize; 28], g: &mut Block)
    requires { (i : ℕ) → i < 28 → get_or places.now i 0 < 28 }
    ensures { Gathered places.now s.now g.new }
{
    for i in 0..28usize {
        g[i] = s[places[i]];
    }
}

// Writes to g the factors of the radii, none above 1 if `low`, and answers whether it could. The radii stay. The array
// for the places is made here: no other path needs it.
pub fn mixed(low: bool, scratch: &mut Scratch, g: &mut Block) -> bool
    requires { low ≡ true → AllLow scratch.old.radii }
    ensures factors { result ≡ true → Each radial_g scratch.old.radii g.new }
    ensures kept { scratch.new.radii ≡ scratch.old.radii }
{
    let mut places = [0usize; 28];
    let u = &mut scratch.parted;
    let s = &mut scratch.factors;
    match part(&scratch.radii, u, &mut places) {
        Some(large) => {
            let done = arc_factors(
                large,
                u,
                low,
                &mut scratch.tangents,
                &mut scratch.radicands,
                s,
            );
            series_from(large, u, s);
            gather(s, &places, g);
            done
        }
        None => false,
    }
}
