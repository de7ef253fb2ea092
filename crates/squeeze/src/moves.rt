// A mesh that loses its unused vertices: the corners renumbered, the coordinates moved down. Marks and ranks are two
// arguments and no struct, since `mark` and `gather` take the marks alone. How many vertices there are stands beside
// their coordinates, since `MeshOf`, `rank` and `squeezed` speak of that number.
// Internal: a function with a `requires` is called by proved code alone.
ghost use Rattle.std.specs.Prelude.{◌≡◌, List, map, ℕ, ◌+◌, ◌*◌, ◌≤◌, ◌<◌, length, take};
ghost use Rattle.mesh.specs.Corners.{Below};
ghost use Rattle.squeeze.specs.Squeeze.{rank, kept_to, renumbered, squeezed};
ghost use Rattle.squeeze.specs.Marks.{Marked, Ranked, MeshOf, number_of};

use crate::marks::{mark, marked, number, sum};
use layout::runs::fill;

// Every corner by its new number.
#[tactic(auto, using(crate::specs::SqueezeLaws::none_mapped, crate::specs::SqueezeLaws::all_mapped))]
fn renumber(corners: &mut [u32], marks: &[u32; 32768], ranks: &[u32])
    requires { (Below (32 * length ranks.now) corners.old) × (length ranks.now ≤ 32768)
        × (Ranked marks.now ranks.now (length ranks.now)) × (Marked corners.old marks.now) }
    ensures { corners.new ≡ renumbered corners.old }
{
    for k in corners.iter_mut() {
        *k = number(marks, ranks, *k);
    }
}

// The coordinates of the marked vertices, moved to the front in order; answers how many vertices these are. By index,
// since a turn reads vertex i and writes vertex `to` of the same slice.
fn gather(xyz: &mut [f64], marks: &[u32; 32768], verts: usize) -> usize
    requires fact_1 { length xyz.old ≡ 3 * verts }
    requires fact_2 { verts ≤ 1048576 }
    ensures { (result ≤ verts) × ((ks : List ℕ) → Marked ks marks.now
        → (result ≡ rank ks verts) × (take (3 * result) xyz.new ≡ kept_to ks xyz.old verts)) }
{
    let mut to: usize = 0;
    for i in 0..verts {
        let x = xyz[3 * i];
        let y = xyz[3 * i + 1];
        let z = xyz[3 * i + 2];
        xyz[3 * to] = x;
        xyz[3 * to + 1] = y;
        xyz[3 * to + 2] = z;
        to += marked(marks, i);
    }
    to
}

// Squeezes a mesh of so many vertices; answers how many are left. Out of line, so that only a call that is not refused
// makes room for the two arrays.
#[inline(never)]
pub fn squeeze_mesh(xyz: &mut [f64], corners: &mut [u32], verts: usize) -> usize
    requires { MeshOf xyz.old corners.old verts }
    ensures { (result ≡ rank corners.old verts)
        × (xyz.new ≡ squeezed corners.old xyz.old verts)
        × (corners.new ≡ renumbered corners.old) }
{
    let mut marks = [0u32; 32768];
    let mut ranks = [0u32; 32768];
    let ranks = &mut ranks[..verts.div_ceil(32)];
    mark(&mut marks, corners);
    sum(ranks, &marks);
    renumber(corners, &marks, ranks);
    let kept = gather(xyz, &marks, verts);
    fill(xyz, 3 * kept, 3 * (verts - kept), 0.0);
    kept
}
