// The density of a list of kernels along a track of points: up to 64 points at once stand in arrays, so that they are
// worked side by side, and each point's sum runs over the kernels in list order.
// Internal: a function with a `requires` is called by proved code alone.
ghost use Rattle.std.specs.Prelude.{◌≡◌, ◌+◌, ◌*◌, ◌≤◌, min, length, get_or};
ghost use Rattle.std.specs.Float.{nan};
ghost use Rattle.std.specs.Float.Ieee.{lt};
ghost use Rattle.base.specs.Floats.{◌⊖◌, abs};
ghost use Rattle.base.specs.Constants.{one, stay_limit};
ghost use Rattle.kernel.specs.Kernels.{kernel_at};
ghost use Rattle.density.specs.Densitize.{densitize_of};
ghost use Rattle.layout.specs.Runs.{write};
ghost use Rattle.along.specs.Along.{along, stretch};
ghost use Rattle.along.specs.PointLanes.{unit_of, unit_at, Lanes, Thirds, Zeros, Added, BothAdded, Summed};

use base::floats::abs;
use density::densitize::density_of;
use kernel::kernel::{Kernel, kernel_at};
use layout::runs::copy;

// Up to 64 points that are worked side by side: how many, and their coordinates, the first of each array. One array for
// each coordinate, so that the processor works two points by one instruction.
#[derive(Clone, Copy)]
pub struct Points {
    pub count: usize,
    pub x: [f64; 64],
    pub y: [f64; 64],
    pub z: [f64; 64],
    ghost few: { count ≤ 64 },
}

// Every third float from `from` on: one coordinate of m points. (By the point's number, since it reads one run and writes
// another in step.)
#[tactic(auto, using(base::specs::FillLaws::none_filled, base::specs::FillLaws::fills, crate::specs::AlongLaws::all_filled))]
fn load(track: &[f64], from: usize, m: usize, x: &mut [f64; 64])
    requires { (m ≤ 64) × (from + 3 * m ≤ length track.now + 2) }
    ensures { Thirds m track.now from x.new }
{
    for i in 0..m {
        x[i] = track[from + 3 * i];
    }
}

// A kernel without its exponent, which is 1. The loops over points keep these five floats at hand.
#[derive(Clone, Copy)]
pub struct UnitKernel {
    pub x: f64,
    pub y: f64,
    pub z: f64,
    pub sigma: f64,
    pub w: f64,
}

// The five floats of a kernel.
fn unit_of(k: Kernel) -> UnitKernel
    ensures { result ≡ unit_of k }
{
    let c = k.c;
    UnitKernel {
        x: c[0],
        y: c[1],
        z: c[2],
        sigma: k.sigma,
        w: k.w,
    }
}

// What a kernel of exponent 1 adds at a point.
#[tactic(auto, unfolding(crate::specs::PointLanes::unit_term))]
fn unit_term(u: UnitKernel, x: f64, y: f64, z: f64) -> f64
    ensures { result ≡ unit_at u x y z }
{
    let dx = x - u.x;
    let dy = y - u.y;
    let dz = z - u.z;
    u.w / (1.0 + u.sigma * u.sigma * (dx * dx + dy * dy + dz * dz))
}

// Whether a kernel passes the strict test of an exponent of 1, that of density's `density_of`. (No method of `Kernel`
// serves all crates: where pieces are made the test is not strict, each as its definition has it.)
fn is_unit(k: Kernel) -> bool
    ensures { result ≡ lt (abs (k.alpha ⊖ one)) stay_limit }
{
    abs(k.alpha - 1.0) < 1e-9
}

// Puts in place of the sum at each point what `add` makes of it and of the point.
fn at_each<F: Fn(f64, f64, f64, f64) -> f64>(points: &Points, rho: &mut [f64; 64], add: F)
    requires { F.IsAlwaysCallable add }
    ensures { Lanes points.now.count
        (λ i r. F.post add (get_or rho.old i nan) (get_or points.now.x i nan) (get_or points.now.y i nan)
        (get_or points.now.z i nan) r) rho.new }
{
    for i in 0..points.count {
        rho[i] = add(rho[i], points.x[i], points.y[i], points.z[i]);
    }
}

// Adds a kernel to the sums.
fn add_kernel(k: Kernel, points: &Points, rho: &mut [f64; 64])
    ensures { Added points.now.count k points.now.x points.now.y points.now.z rho.old rho.new }
{
    if is_unit(k) {
        let u = unit_of(k);
        at_each(points, rho, |sum, x, y, z| sum + unit_term(u, x, y, z));
    } else {
        at_each(points, rho, |sum, x, y, z| sum + density_of(k, [x, y, z]));
    }
}

// Adds two kernels to the sums, k first. Where both pass the strict test the points and the sums are read once for
// both, which leaves the processor little but the quotients to wait for.
fn add_both(k: Kernel, l: Kernel, points: &Points, rho: &mut [f64; 64])
    ensures { BothAdded points.now.count k l points.now.x points.now.y points.now.z rho.old rho.new }
{
    if is_unit(k) & is_unit(l) {
        let u = unit_of(k);
        let v = unit_of(l);
        at_each(
            points,
            rho,
            |sum, x, y, z| sum + unit_term(u, x, y, z) + unit_term(v, x, y, z),
        );
    } else {
        add_kernel(k, points, rho);
        add_kernel(l, points, rho);
    }
}

// Adds the first 2 * pairs kernels of a list to sums that are +0.
fn add_pairs(kernels: &[f64], pairs: usize, points: &Points, rho: &mut [f64; 64])
    requires { (12 * pairs ≤ length kernels.now) × Zeros points.now.count rho.old }
    ensures { Summed points.now.count (densitize_of (kernel_at kernels.now) (2 * pairs)) points.now.x points.now.y
        points.now.z rho.new }
{
    for j in 0..pairs {
        let k = kernel_at(kernels, 2 * j);
        let l = kernel_at(kernels, 2 * j + 1);
        add_both(k, l, points, rho);
    }
}

// Adds the first n kernels of a list to sums that are +0.
fn add_all(kernels: &[f64], n: usize, points: &Points, rho: &mut [f64; 64])
    requires { (6 * n ≤ length kernels.now) × Zeros points.now.count rho.old }
    ensures { Summed points.now.count (densitize_of (kernel_at kernels.now) n) points.now.x points.now.y
        points.now.z rho.new }
{
    let pairs = n / 2;
    add_pairs(kernels, pairs, points, rho);
    if n % 2 == 1 {
        add_kernel(kernel_at(kernels, 2 * pairs), points, rho);
    }
}

// Writes the densities at the m points of a track from `at` on.
fn block(kernels: &[f64], n: usize, track: &[f64], at: usize, m: usize, out: &mut [f64])
    requires { (6 * n ≤ length kernels.now) × (m ≤ 64) × (3 * (at + m) ≤ length track.now)
        × (at + m ≤ length out.old) }
    ensures { out.new ≡ write out.old at
        (stretch (densitize_of (kernel_at kernels.now) n) track.now at m) }
{
    let mut points = Points {
        count: m,
        x: [0.0; 64],
        y: [0.0; 64],
        z: [0.0; 64],
    };
    load(track, 3 * at, m, &mut points.x);
    load(track, 3 * at + 1, m, &mut points.y);
    load(track, 3 * at + 2, m, &mut points.z);
    let mut rho = [0.0; 64];
    add_all(kernels, n, &points, &mut rho);
    copy(out, at, &rho[..m]);
}

// How many of the points that are left are worked at once: two blocks of a like size rather than a long one and a short
// one.
fn share(left: usize) -> usize
    ensures { (result ≤ 64) × (result ≤ left) × (min left 1 ≤ result) }
{
    if left <= 64 { left } else { (left / 2).min(64) }
}

// Writes the density of the first n kernels of a list at each of the first `count` points of a track. (A `while`, since
// a block's size depends on what is left. n and `count` stand beside the runs, as in the definitions that the caller's
// clauses are made of: with runs that are cut to length each clause would have to speak of their beginnings.)
pub fn densities(kernels: &[f64], n: usize, track: &[f64], count: usize, out: &mut [f64])
    requires { (6 * n ≤ length kernels.now) × (3 * count ≤ length track.now) × (count ≤ length out.old) }
    ensures { out.new ≡ write out.old 0
        (along (densitize_of (kernel_at kernels.now) n) track.now count) }
{
    let mut at: usize = 0;
    while at < count {
        let m = share(count - at);
        block(kernels, n, track, at, m, out);
        at += m;
    }
}
