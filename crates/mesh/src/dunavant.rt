// DUNANT7 of native mass.rs: Dunavant's seven points on a triangle (1985, degree 5). Its rows repeat eight numbers, so
// these stand here, and a function that picks those of a row. With the row's number known it costs nothing.
// Internal: a function with a `requires` is called by proved code alone.
ghost use Rattle.std.specs.Prelude.{◌≡◌, ◌<◌};
ghost use Rattle.mesh.specs.Dunavant.{by_row, barycentric, node, point_of};

use crate::triangles::Triangle;
use crate::vectors::V3;

// A row of the rule: a point's barycentric coordinates at the three corners, and its weight.
#[derive(Clone, Copy)]
pub struct Node {
    pub a: f64,
    pub b: f64,
    pub c: f64,
    pub w: f64,
}

// Row 0 is the middle: a third at each corner.
pub const THIRD: f64 = 1.0 / 3.0;

pub const MIDDLE_WEIGHT: f64 = 0.225;

// Rows 1 to 3 are the inner points, near the middles of the sides: the coordinate at one corner is small.
pub const INNER_ONE: f64 = 0.059_715_871_789_769_81;

pub const INNER_TWO: f64 = 0.470_142_064_105_115_1;

pub const INNER_WEIGHT: f64 = 0.132_394_152_788_506_2;

// Rows 4 to 6 are the outer points, near the corners: the coordinate at one corner is great.
pub const OUTER_ONE: f64 = 0.797_426_985_353_087_3;

pub const OUTER_TWO: f64 = 0.101_286_507_323_456_34;

pub const OUTER_WEIGHT: f64 = 0.125_939_180_544_827_13;

// Which of three numbers stands in row i.
#[tactic(auto, unfolding(crate::specs::Dunavant::by_row))]
fn by_row(i: usize, middle: f64, inner: f64, outer: f64) -> f64
    ensures { result ≡ by_row i middle inner outer }
{
    match i {
        0 => middle,
        1..=3 => inner,
        _ => outer,
    }
}

// The barycentric coordinate of row i at corner k.
#[tactic(auto, unfolding(crate::specs::Dunavant::barycentric))]
fn barycentric(i: usize, k: usize) -> f64
    requires { i < 7 }
    ensures { result ≡ barycentric i k }
{
    if k == (i + 2) % 3 {
        return by_row(i, THIRD, INNER_ONE, OUTER_ONE);
    }
    by_row(i, THIRD, INNER_TWO, OUTER_TWO)
}

// Row i.
#[tactic(auto, unfolding(crate::specs::Dunavant::node))]
pub fn node_at(i: usize) -> Node
    requires { i < 7 }
    ensures { result ≡ node i }
{
    Node {
        a: barycentric(i, 0),
        b: barycentric(i, 1),
        c: barycentric(i, 2),
        w: by_row(i, MIDDLE_WEIGHT, INNER_WEIGHT, OUTER_WEIGHT),
    }
}

// The point of a triangle at a node.
#[tactic(auto, unfolding(crate::specs::Dunavant::point_of))]
pub fn point_of(t: Triangle, k: Node) -> V3
    ensures { result ≡ point_of t k }
{
    V3 {
        x: k.a * t.a.x + k.b * t.b.x + k.c * t.c.x,
        y: k.a * t.a.y + k.b * t.b.y + k.c * t.c.y,
        z: k.a * t.a.z + k.b * t.b.z + k.c * t.c.z,
    }
}
