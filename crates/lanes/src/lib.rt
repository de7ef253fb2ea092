// The radial factors of 28 points at once. One loop does one step of all points and has no branch,
// so that LLVM works on two points at a time; what a step could not do is flagged, and then the
// points are done one by one. The loops go by index, since each reads and writes several arrays in step.
// Internal: what `factors` leaves in its scratch arrays is not said.
#![tactic(auto)]

ghost use Rattle.std.specs.Prelude.{◌≡◌, true, replicate};
ghost use Rattle.base.specs.Floats.{+0};
ghost use Rattle.radial.specs.Radial.{radial_g};
ghost use Rattle.lanes.specs.Factors.{Each, factor};
ghost use Rattle.lanes.specs.Stages.{AllLarge, AllLow};

use crate::mixed::mixed;
use crate::radii::{Found, radii_of};
use crate::series::{all_small, series_from};
use arcs::arc_factors;
use radial::radial_g;
use root::root;

pub mod mixed;
pub mod radii;
pub mod series;

// A float of each of the 28 points of a block.
pub type Block = [f64; 28];

// The arrays that a block's factors are worked in. What they hold before and after does not matter to `factors`: they
// are made once, by `new` or of five arrays that a caller has, and lent for each block.
#[derive(Drop)]
pub struct Scratch {
    // The radii. `mixed` takes any that it finds here.
    pub radii: Block,
    // The radii parted by their size, and the factors in the same order.
    pub parted: Block,
    pub factors: Block,
    // What the arc tangents take: tangents, and what roots are taken of.
    pub tangents: Block,
    pub radicands: Block,
}

impl Scratch {
    // Arrays of zeros.
    pub fn new() -> Scratch
        ensures { let zeros = replicate 28 +0 in
            (result.radii ≡ zeros) × (result.parted ≡ zeros) × (result.factors ≡ zeros)
            × (result.tangents ≡ zeros) × (result.radicands ≡ zeros) }
    {
        Scratch {
            radii: [0.0; 28],
            parted: [0.0; 28],
            factors: [0.0; 28],
            tangents: [0.0; 28],
            radicands: [0.0; 28],
        }
    }
}

// The factors, one by one.
#[tactic(auto, using(crate::proofs::Laws::fills_all))]
fn one_by_one(x: &Block, sigma: f64, g: &mut Block)
    ensures { Each (factor sigma) x.now g.new }
{
    for i in 0..28usize {
        g[i] = radial_g(sigma * root(x[i]));
    }
}

// Writes to g the factors of the radii, of which `found` tells, and answers whether it could. The radii stay.
fn of_radii(found: Found, scratch: &mut Scratch, g: &mut Block) -> bool
    requires { (found.large ≡ true → AllLarge scratch.old.radii) × (found.low ≡ true → AllLow scratch.old.radii) }
    ensures factors { result ≡ true → Each radial_g scratch.old.radii g.new }
    ensures kept { scratch.new.radii ≡ scratch.old.radii }
{
    if found.large {
        return arc_factors(
            28,
            &scratch.radii,
            found.low,
            &mut scratch.tangents,
            &mut scratch.radicands,
            g,
        );
    }
    if all_small(&scratch.radii) {
        series_from(0, &scratch.radii, g);
        return true;
    }
    mixed(found.low, scratch, g)
}

// Writes to g the factors step by step, and answers whether it could.
fn staged(x: &Block, sigma: f64, scratch: &mut Scratch, g: &mut Block) -> bool
    ensures { result ≡ true → Each (factor sigma) x.now g.new }
{
    let found = radii_of(x, sigma, &mut scratch.radicands, g, &mut scratch.radii);
    found.near && of_radii(found, scratch, g)
}

// Writes to g the radial factor of each point, x being the squares of the distances, for any sigma; the arcs of a
// sigma below 0 are worked one by one, so a caller gives its absolute value where it may.
pub fn factors(x: &Block, sigma: f64, scratch: &mut Scratch, g: &mut Block)
    ensures { Each (factor sigma) x.now g.new }
{
    if !staged(x, sigma, scratch, g) {
        one_by_one(x, sigma, g);
    }
}
