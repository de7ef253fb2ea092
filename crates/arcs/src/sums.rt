// The series of the arc tangents of n points, its eleven steps in three loops: four, four and three. That is faster
// than one loop (docs/SPEED.md). Each step of a point waits for the one before; our explanation is that in one loop the
// processor has too few points in hand to fill these waits.
// Internal: a function with a `requires` is called by proved code alone.
ghost use Rattle.std.specs.Prelude.{◌≡◌, ◌≤◌, length};
ghost use Rattle.base.specs.Floats.{◌⊗◌};
ghost use Rattle.powers.specs.Arc.{arc_core};
ghost use Rattle.arcs.specs.Stages.{StepsLeft, AllStepsLeft};

// The steps of the series at q from that of from - 1 down to that of `to`, as `powers::arc` has them.
#[tactic(auto, using(crate::proofs::Laws::turns))]
fn steps(q: f64, a: f64, from: u32, to: u32) -> f64
    requires { (to ≤ from) × (from ≤ 11) × StepsLeft from q a }
    ensures { StepsLeft to q result }
{
    let mut a = a;
    for k in (to..from).rev() {
        a = 1.0 / ((2 * k + 1) as f64) - q * a;
    }
    a
}

// The first four steps.
#[tactic(auto, using(crate::proofs::Laws::fills_all, crate::proofs::Parts::all_left))]
fn first_steps(n: usize, v: &[f64], g: &mut [f64])
    requires { (n ≤ length v.now) × (n ≤ length g.old) }
    ensures { AllStepsLeft 7 n v.now g.new }
{
    for i in 0..n {
        let a = v[i];
        g[i] = steps(a * a, 1.0 / 23.0, 11, 7);
    }
}

// Four more.
#[tactic(auto, using(crate::proofs::Laws::fills_all))]
fn next_steps(n: usize, v: &[f64], g: &mut [f64])
    requires { (n ≤ length v.now) × (n ≤ length g.old) × AllStepsLeft 7 n v.now g.old }
    ensures { AllStepsLeft 3 n v.now g.new }
{
    for i in 0..n {
        let a = v[i];
        g[i] = steps(a * a, g[i], 7, 3);
    }
}

// The sums in g, but for their last three steps.
pub fn begin(n: usize, v: &[f64], g: &mut [f64])
    requires { (n ≤ length v.now) × (n ≤ length g.old) }
    ensures { AllStepsLeft 3 n v.now g.new }
{
    first_steps(n, v, g);
    next_steps(n, v, g);
}

// Four times the arc of v, by the last three steps.
pub fn ended(v: f64, a: f64) -> f64
    requires { StepsLeft 3 (v ⊗ v) a }
    ensures { result ≡ arc_core v }
{
    4.0 * (v * steps(v * v, a, 3, 0))
}
