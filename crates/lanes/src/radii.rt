// The radii of 28 points, from the squares of their distances: sigma times the root.
// Internal: a function with a `requires` is called by proved code alone.
ghost use Rattle.std.specs.Prelude.{◌≡◌};
ghost use Rattle.arcs.specs.Stages.{Large, Low};
ghost use Rattle.lanes.specs.Stages.{Radii};

use crate::Block;
use arcs::sharpen_all;
use root::lanes::{any_lane, near};

// What was found of the radii: whether every guess was near enough, so that they are the radii asked for; whether all
// are at least 0.1; and whether none is above 1. No Option, since what is said of their sizes holds of the radii as
// they were made, also where a guess was too far off.
#[derive(Clone, Copy)]
pub struct Found {
    pub near: bool,
    pub large: bool,
    pub low: bool,
}

// Guesses y for the roots of the significands, of which nothing is promised.
fn guess(x: &Block, radicands: &mut Block, y: &mut Block) {
    for i in 0..28usize {
        let p = near(x[i]);
        radicands[i] = p.part;
        y[i] = p.near;
    }
}

// 0 where t is at least 0.1, else all ones, as SSE2's comparisons answer.
#[tactic(auto, using(crate::proofs::Laws::flags))]
fn not_large(t: f64) -> u64
    ensures { result ≡ 0 → Large t }
{
    if t >= 0.1 { 0 } else { u64::MAX }
}

// 0 where t is not above 1, else all ones.
#[tactic(auto, using(crate::proofs::Laws::flags))]
fn not_low(t: f64) -> u64
    ensures { result ≡ 0 → Low t }
{
    if t > 1.0 { u64::MAX } else { 0 }
}

// The radii, by the guesses y.
fn radii(x: &Block, y: &Block, sigma: f64, t: &mut Block) -> Found
    ensures { Radii sigma x.now result t.new }
{
    let mut coarse = 0u64;
    let mut far = 0u64;
    let mut small = 0u64;
    let mut high = 0u64;
    for i in 0..28usize {
        let p = any_lane(x[i], y[i]);
        let r = sigma * p.root;
        t[i] = r;
        coarse = coarse | p.coarse;
        far = far | p.far;
        small = small | not_large(r);
        high = high | not_low(r);
    }
    Found {
        near: (coarse >> 36) | (far >> 62) == 0,
        large: small == 0,
        low: high == 0,
    }
}

// The radii in t; `radicands` is for significands and y for guesses.
pub fn radii_of(x: &Block, sigma: f64, radicands: &mut Block, y: &mut Block, t: &mut Block) -> Found
    ensures { Radii sigma x.now result t.new }
{
    guess(x, radicands, y);
    sharpen_all(28, radicands, y, 1.1102230246251565e-16);
    radii(x, y, sigma, t)
}
