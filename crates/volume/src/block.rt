// The volume over four faces at once: their 28 points stand in arrays, so that the radial factors are worked side by
// side. Every function here has a `requires`, but `all_shares`; a `length` of 28 stands where a proof must carry an
// array's length. Internal: a function with a `requires` is called by proved code alone.
ghost use Rattle.std.specs.Prelude.{◌≡◌, ◌+◌, ◌*◌, ◌≤◌, ◌<◌, length, set};
ghost use Rattle.mesh.specs.Triangles.{normal_of};
ghost use Rattle.mesh.specs.Meshes.{face_count_of, triangles_of};
ghost use Rattle.volume.specs.Volume.{volume_from};
ghost use Rattle.volume.specs.Block.{square_of, height_of, seven_set, squares_of, heights_of, Points, share_of, seven_shares, all_shares};

use lanes::{Scratch, factors};
use mesh::dunavant::{Node, node_at, point_of};
use mesh::triangles::{Mesh, Triangle};
use mesh::vectors::V3;

// The points of four faces, face after face: of each the square of its distance from a kernel's centre c, and its
// height over c along its face's normal.
#[derive(Drop)]
struct FacePoints {
    squares: [f64; 28],
    heights: [f64; 28],
}

impl FacePoints {
    // Writes the point at a node to place `at`.
    #[tactic(auto, unfolding(crate::specs::Block::square_of, crate::specs::Block::height_of))]
    fn set_point(&mut self, t: Triangle, n: V3, c: V3, k: Node, at: usize)
        requires { at < 28 }
        ensures { (self.new.squares ≡ set self.old.squares at (square_of t c k))
            × (self.new.heights ≡ set self.old.heights at (height_of t n c k)) }
    {
        let d = point_of(t, k) - c;
        self.squares[at] = d.dot(d);
        self.heights[at] = d.dot(n);
    }

    // Writes a face's seven points, from place `at` on.
    #[tactic(auto, unfolding(crate::specs::Block::seven_set), using(base::specs::TimesLaws::turns))]
    fn set_face(&mut self, t: Triangle, c: V3, at: usize)
        requires { at + 7 ≤ 28 }
        ensures { (self.new.squares ≡ seven_set (square_of t c) at self.old.squares)
            × (self.new.heights ≡ seven_set (height_of t (normal_of t) c) at self.old.heights) }
    {
        let n = t.normal();
        for k in 0..7usize {
            self.set_point(t, n, c, node_at(k), at + k);
        }
    }

    // Writes the points of the four faces from f on.
    fn set_faces(&mut self, mesh: Mesh, f: usize, c: V3)
        requires { (f + 4 ≤ face_count_of mesh) × (length self.old.squares ≡ 28) × (length self.old.heights ≡ 28) }
        ensures { Points (squares_of (triangles_of mesh.entry) c f) 4 self.new.squares
            × Points (heights_of (triangles_of mesh.entry) c f) 4 self.new.heights }
    {
        for j in 0..4usize {
            self.set_face(mesh.triangle_at(f + j), c, 7 * j);
        }
    }
}

// What the point at `at` adds.
fn share(w: f64, g: &[f64; 28], heights: &[f64; 28], at: usize) -> f64
    requires { at < 28 }
    ensures { result ≡ share_of w g.now heights.now at }
{
    w * g[at] * heights[at] * 0.5
}

// The sum after a face's seven points.
#[tactic(auto, unfolding(crate::specs::Block::seven_shares), using(base::specs::TimesLaws::turns))]
fn seven_shares(sum: f64, g: &[f64; 28], heights: &[f64; 28], at: usize) -> f64
    requires { at + 7 ≤ 28 }
    ensures { result ≡ seven_shares g.now heights.now at sum }
{
    let mut sum = sum;
    for k in 0..7usize {
        sum += share(node_at(k).w, g, heights, at + k);
    }
    sum
}

// The sum after all points.
#[tactic(auto, unfolding(crate::specs::Block::all_shares), using(base::specs::TimesLaws::turns))]
fn all_shares(sum: f64, g: &[f64; 28], heights: &[f64; 28]) -> f64
    ensures { result ≡ all_shares g.now heights.now sum }
{
    let mut sum = sum;
    for face in 0..4usize {
        sum = seven_shares(sum, g, heights, 7 * face);
    }
    sum
}

// The sum after n blocks from the face `from` on. Each block writes the arrays anew: they are made once for all.
pub fn volume_blocks(sum: f64, mesh: Mesh, c: V3, sigma: f64, from: usize, n: usize) -> f64
    requires { from + 4 * n ≤ face_count_of mesh }
    ensures { result ≡ volume_from (triangles_of mesh.entry) c sigma from (from + 4 * n) sum }
{
    let mut points = FacePoints {
        squares: [0.0; 28],
        heights: [0.0; 28],
    };
    let mut scratch = Scratch::new();
    let mut g = [0.0; 28];
    let mut sum = sum;
    for i in 0..n {
        points.set_faces(mesh, from + 4 * i, c);
        factors(&points.squares, sigma, &mut scratch, &mut g);
        sum = all_shares(sum, &g, &points.heights);
    }
    sum
}
