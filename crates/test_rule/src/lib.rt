// Dunavant's rule as the code has it: its figures beside the 15 decimals printed in 1985, and the
// moments of degree 0 to 5 beside the exact ones.
// Internal: a function with a `requires` is called by proved code alone.
#![tactic(auto)]

ghost use Rattle.std.specs.Prelude.{◌≤◌};

use base::floats::abs;
use mesh::dunavant::{
    INNER_ONE, INNER_TWO, INNER_WEIGHT, MIDDLE_WEIGHT, Node, OUTER_ONE, OUTER_TWO, OUTER_WEIGHT,
    THIRD, node_at, point_of,
};
use mesh::triangles::Triangle;
use mesh::vectors::V3;
use std::io;
use test_words::put_floats;

// Ends a line: whether a difference is at most so much.
fn put_verdict(rt: &impl Print, off: f64, most: f64) -> io::Result<()> {
    let verdict = if abs(off) <= most { "ok" } else { "off" };
    print!(rt; " {verdict}\n")
}

// Writes a figure and how far it lies from the printed one, in units of the 15th decimal; half of one
// is what the printing has lost.
fn put_figure(rt: &impl Print, name: &str, x: f64, printed: f64) -> io::Result<()> {
    let off = x * 1e15 - printed;
    print!(rt; "dunavant {name}")?;
    put_floats(rt, &[x, off])?;
    put_verdict(rt, off, 0.5)
}

// The weights and the corners' shares.
pub fn put_figures(rt: &impl Print) -> io::Result<()> {
    put_figure(rt, "middle-weight", MIDDLE_WEIGHT, 225000000000000.0)?;
    put_figure(rt, "inner-weight", INNER_WEIGHT, 132394152788506.0)?;
    put_figure(rt, "outer-weight", OUTER_WEIGHT, 125939180544827.0)?;
    put_figure(rt, "third", THIRD, 333333333333333.0)?;
    put_figure(rt, "inner-one", INNER_ONE, 59715871789770.0)?;
    put_figure(rt, "inner-two", INNER_TWO, 470142064105115.0)?;
    put_figure(rt, "outer-one", OUTER_ONE, 797426985353087.0)?;
    put_figure(rt, "outer-two", OUTER_TWO, 101286507323456.0)
}

// x to the power n, as a product.
fn raised(x: f64, n: u32) -> f64 {
    let mut y = 1.0;
    for _ in 0..n {
        y *= x;
    }
    y
}

// n factorial, for an n whose factorial a float holds.
fn factorial(n: u32) -> f64
    requires { n ≤ 7 }
{
    let mut y = 1.0;
    for k in 1..n + 1 {
        y *= k as f64;
    }
    y
}

// The sum after the point at a node of the triangle (0, 0), (1, 0), (0, 1): w·x^i·y^j.
fn added(sum: f64, k: Node, i: u32, j: u32) -> f64 {
    let a = V3 {
        x: 0.0,
        y: 0.0,
        z: 0.0,
    };
    let b = V3 { x: 1.0, ..a };
    let c = V3 { y: 1.0, ..a };
    let at = point_of(Triangle { a, b, c }, k);
    sum + k.w * (raised(at.x, i) * raised(at.y, j))
}

// The rule's moment: what it makes of the mean of x^i·y^j.
fn moment(i: u32, j: u32) -> f64 {
    let mut sum = 0.0;
    for row in 0..7 {
        sum = added(sum, node_at(row), i, j);
    }
    sum
}

// Writes a moment beside the exact mean, 2·i!·j!/(i+j+2)!, and whether they differ by at most 1e-15.
fn put_moment(rt: &impl Print, i: u32, degree: u32) -> io::Result<()>
    requires { (i ≤ degree) × (degree ≤ 5) }
{
    let j = degree - i;
    let sum = moment(i, j);
    let exact = 2.0 * factorial(i) * factorial(j) / factorial(degree + 2);
    print!(rt; "moment {i} {j}")?;
    put_floats(rt, &[sum, exact])?;
    put_verdict(rt, sum - exact, 1e-15)
}

fn put_degree(rt: &impl Print, degree: u32) -> io::Result<()>
    requires { degree ≤ 5 }
{
    for i in 0..degree + 1 {
        put_moment(rt, i, degree)?;
    }
    Ok(())
}

// The moments of degree 0 to 5, of which the rule has all.
pub fn put_moments(rt: &impl Print) -> io::Result<()> {
    for degree in 0..6 {
        put_degree(rt, degree)?;
    }
    Ok(())
}
