// The radial factors of radii of at least 0.1, by the arc tangent: of the first n of a run, since a block of points may
// have only some of these. One loop does one step of all points and has no branch, so that LLVM works on two points at
// a time; what a step could not do is flagged. Where no radius is above 1 the halvings start from the radii as they
// are, and no arc is turned: that path saves a division and two choices a point. The loops go by index, since each reads
// and writes several arrays in step.
// Internal: a function with a `requires` is called by proved code alone.
#![tactic(auto)]

ghost use Rattle.std.specs.Prelude.{◌≡◌, ◌≤◌, true, length};
ghost use Rattle.base.specs.Floats.{◌⊗◌};
ghost use Rattle.powers.specs.Arc.{halved};
ghost use Rattle.radial.specs.Radial.{radial_g};
ghost use Rattle.arcs.specs.Lists.{Each};
ghost use Rattle.arcs.specs.Stages.{Low, inverted, turned, radicand, quotient, AllLarge, AllLow, Radicands, Tangents, Halves, StepsLeft, AllStepsLeft, Quotients};

use crate::sums::{begin, ended};
use root::lanes::{near_one, near_unit, sharpen, unit_lane};

pub mod sums;

// What the halvings start from, at most 1: s itself where it is not above 1, which LOW says.
#[tactic(auto, using(crate::proofs::Laws::low), unfolding(crate::specs::Stages::inverted))]
fn inverted<const LOW: bool>(s: f64) -> f64
    requires { LOW ≡ true → Low s }
    ensures { result ≡ inverted s }
{
    if LOW {
        return s;
    }
    let w = 1.0 / s;
    if s > 1.0 { w } else { s }
}

// The arc of s from that of `inverted`.
#[tactic(auto, unfolding(crate::specs::Stages::turned))]
fn turned<const LOW: bool>(s: f64, a: f64) -> f64
    requires { LOW ≡ true → Low s }
    ensures { result ≡ turned s a }
{
    if LOW {
        return a;
    }
    let h = 1.5707963267948966 - a;
    if s > 1.0 { h } else { a }
}

// The factor of a t of at least 0.1, v being what two halvings leave and a its series but for the last steps.
#[tactic(auto, unfolding(crate::specs::Stages::quotient))]
fn quotient<const LOW: bool>(t: f64, v: f64, a: f64) -> f64
    requires { (LOW ≡ true → Low t) × StepsLeft 3 (v ⊗ v) a }
    ensures { result ≡ quotient t v }
{
    (t - turned::<LOW>(t, ended(v, a))) / (t * t * t)
}

// Better guesses, of which nothing is promised; `less` is as `sharpen` takes it.
pub fn sharpen_all(n: usize, radicands: &[f64], y: &mut [f64], less: f64)
    requires { (n ≤ length radicands.now) × (n ≤ length y.old) }
    ensures { length y.new ≡ length y.old }
{
    for i in 0..n {
        y[i] = sharpen(radicands[i], y[i], less);
    }
}

// What the halvings start from, the radicands of the first, and guesses y for their roots, of which nothing is
// promised. Where no radius is above 1, which LOW says, nothing is divided. The division stands in this loop, since a
// loop for it alone was compiled with branches.
#[tactic(auto, using(crate::proofs::Laws::fills_all))]
fn start_of<const LOW: bool>(
    n: usize,
    t: &[f64],
    v: &mut [f64],
    radicands: &mut [f64],
    y: &mut [f64],
)
    requires { (n ≤ length t.now) × (n ≤ length v.old) × (n ≤ length radicands.old) × (n ≤ length y.old)
        × (LOW ≡ true → AllLow n t.now) }
    ensures { Each n inverted t.now v.new
        × Each n (λ s. radicand (inverted s)) t.now radicands.new }
{
    for i in 0..n {
        let a = inverted::<LOW>(t[i]);
        let s = 1.0 + a * a;
        v[i] = a;
        radicands[i] = s;
        y[i] = near_unit(s);
    }
}

// The same, by what `low` says of the radii.
fn start(n: usize, t: &[f64], low: bool, v: &mut [f64], radicands: &mut [f64], y: &mut [f64])
    requires { (n ≤ length t.now) × (n ≤ length v.old) × (n ≤ length radicands.old) × (n ≤ length y.old)
        × (low ≡ true → AllLow n t.now) }
    ensures { Each n inverted t.now v.new
        × Each n (λ s. radicand (inverted s)) t.now radicands.new }
{
    if low {
        start_of::<true>(n, t, v, radicands, y);
    } else {
        start_of::<false>(n, t, v, radicands, y);
    }
}

// The radicands of the second halving, at most 1.1716, and guesses for their roots.
#[tactic(auto, using(crate::proofs::Laws::fills_all))]
fn guess_second(n: usize, v: &[f64], radicands: &mut [f64], y: &mut [f64])
    requires { (n ≤ length v.now) × (n ≤ length radicands.old) × (n ≤ length y.old) }
    ensures { Each n radicand v.now radicands.new }
{
    for i in 0..n {
        let a = v[i];
        let s = 1.0 + a * a;
        radicands[i] = s;
        y[i] = near_one(s);
    }
}

// The tangents of the half angles, from the radicands and the guesses y for their roots; answers whether each
// guess was near enough.
fn halve(n: usize, radicands: &[f64], y: &[f64], v: &mut [f64]) -> bool
    requires { (n ≤ length radicands.now) × (n ≤ length y.now) × (n ≤ length v.old)
        × Radicands n radicands.now
        × Tangents n v.old }
    ensures { Tangents n v.new
        × (result ≡ true → Halves n v.old radicands.now v.new) }
{
    let mut coarse = 0u64;
    let mut far = 0u64;
    for i in 0..n {
        let p = unit_lane(radicands[i], y[i]);
        v[i] = v[i] / (1.0 + p.root);
        coarse = coarse | p.coarse;
        far = far | p.far;
    }
    (coarse >> 36) | (far >> 54) == 0
}

// A halving, by guesses that are made better first.
fn halve_by(n: usize, radicands: &[f64], y: &mut [f64], v: &mut [f64]) -> bool
    requires { (n ≤ length radicands.now) × (n ≤ length y.old) × (n ≤ length v.old)
        × Radicands n radicands.now
        × Tangents n v.old }
    ensures { Tangents n v.new
        × (result ≡ true → Halves n v.old radicands.now v.new) }
{
    sharpen_all(n, radicands, y, 7.8e-17);
    halve(n, radicands, y, v)
}

// The first halving, of what the radii start from; y is for guesses.
fn halve_first(
    n: usize,
    t: &[f64],
    low: bool,
    v: &mut [f64],
    radicands: &mut [f64],
    y: &mut [f64],
) -> bool
    requires { (n ≤ length t.now) × (n ≤ length v.old) × (n ≤ length radicands.old) × (n ≤ length y.old)
        × AllLarge n t.now × (low ≡ true → AllLow n t.now) }
    ensures { Tangents n v.new
        × (result ≡ true → Each n (λ s. halved (inverted s)) t.now v.new) }
{
    start(n, t, low, v, radicands, y);
    halve_by(n, radicands, y, v)
}

// The second halving; y is for guesses.
fn halve_again(n: usize, v: &mut [f64], radicands: &mut [f64], y: &mut [f64]) -> bool
    requires { (n ≤ length v.old) × (n ≤ length radicands.old) × (n ≤ length y.old) × Tangents n v.old }
    ensures { result ≡ true → Each n halved v.old v.new }
{
    guess_second(n, v, radicands, y);
    halve_by(n, radicands, y, v)
}

// The factors of the radii t, none above 1 if LOW, v being what the halvings leave and g their series but for the last
// steps.
#[tactic(auto, using(crate::proofs::Laws::fills_all))]
fn quotients_of<const LOW: bool>(n: usize, t: &[f64], v: &[f64], g: &mut [f64])
    requires { (n ≤ length t.now) × (n ≤ length v.now) × (n ≤ length g.old)
        × (LOW ≡ true → AllLow n t.now) × AllStepsLeft 3 n v.now g.old }
    ensures { Quotients n t.now v.now g.new }
{
    for i in 0..n {
        g[i] = quotient::<LOW>(t[i], v[i], g[i]);
    }
}

// The factors in g, by what `low` says of the radii.
fn quotients(n: usize, t: &[f64], low: bool, v: &[f64], g: &mut [f64])
    requires { (n ≤ length t.now) × (n ≤ length v.now) × (n ≤ length g.old)
        × (low ≡ true → AllLow n t.now) }
    ensures { Quotients n t.now v.now g.new }
{
    begin(n, v, g);
    if low {
        quotients_of::<true>(n, t, v, g);
    } else {
        quotients_of::<false>(n, t, v, g);
    }
}

// The factors of the first n radii of t, which are at least 0.1, none above 1 if `low`; answers whether they could be
// worked so. v is for the tangents, and g for guesses before it holds the factors.
pub fn arc_factors(
    n: usize,
    t: &[f64],
    low: bool,
    v: &mut [f64],
    radicands: &mut [f64],
    g: &mut [f64],
) -> bool
    requires { (n ≤ length t.now) × (n ≤ length v.old) × (n ≤ length radicands.old) × (n ≤ length g.old)
        × AllLarge n t.now × (low ≡ true → AllLow n t.now) }
    ensures { result ≡ true → Each n radial_g t.now g.new }
{
    let first = halve_first(n, t, low, v, radicands, g);
    let second = halve_again(n, v, radicands, g);
    quotients(n, t, low, v, g);
    first & second
}
