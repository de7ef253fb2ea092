// The radial factors of radii whose absolute value is below 0.1, by the series.
// Internal: a function with a `requires` is called by proved code alone.
ghost use Rattle.std.specs.Prelude.{◌≡◌, ◌≤◌, true};
ghost use Rattle.lanes.specs.Stages.{Small, AllSmall, SeriesFrom};

use crate::Block;
use radial::radial_g_series;

// 0 where the absolute value of t is below 0.1, else all ones, as SSE2's comparisons answer.
#[tactic(auto, using(crate::proofs::Laws::flags))]
pub fn not_small(t: f64) -> u64
    ensures { result ≡ 0 → Small t }
{
    if t < 0.1 {
        if t > -0.1 { 0 } else { u64::MAX }
    } else {
        u64::MAX
    }
}

// Whether that is so of all radii.
#[tactic(auto, using(crate::proofs::Laws::sees_all))]
pub fn all_small(t: &Block) -> bool
    ensures { result ≡ true → AllSmall t.now }
{
    let mut flag = 0u64;
    for i in 0..28usize {
        flag = flag | not_small(t[i]);
    }
    flag == 0
}

// The series of the radii from place n on.
pub fn series_from(n: usize, t: &Block, g: &mut Block)
    requires { n ≤ 28 }
    ensures { SeriesFrom n t.now g.old g.new }
{
    for i in n..28usize {
        g[i] = radial_g_series(t[i]);
    }
}
