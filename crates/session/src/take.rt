// The lines of an opening's mesh, each kept where it is due. These functions are internal: they are asked an opening of
// no more vertices and faces than the program takes.
ghost use Rattle.std.specs.Prelude.{◌≡◌, true, false, ◌*◌};
ghost use Rattle.std.proofs.lemmas.List.Edits.{sets};
ghost use Rattle.session.specs.Session.{Small, verts_due, due, vert_read, face_read};

use crate::opening::Opening;

// Keeps the next vertex.
pub fn add_vert(o: Opening, point: [f64; 3], coords: &mut [f64; 1500]) -> Opening
    requires fact_1 { Small o }
    requires fact_2 { verts_due o ≡ true }
    ensures value { result ≡ vert_read o }
    ensures coords_after { coords.new ≡ sets coords.old (3 * o.verts_read) point }
{
    let at = 3 * o.verts_read as usize;
    coords[at..at + 3].copy_from_slice(&point);
    Opening {
        verts_read: o.verts_read + 1,
        ..o
    }
}

// Keeps the next face.
pub fn add_face(o: Opening, face: [u32; 3], corners: &mut [u32; 3000]) -> Opening
    requires fact_1 { Small o }
    requires fact_2 { (verts_due o ≡ false) × (due o ≡ true) }
    ensures value { result ≡ face_read o }
    ensures corners_after { corners.new ≡ sets corners.old (3 * o.faces_read) face }
{
    let at = 3 * o.faces_read as usize;
    corners[at..at + 3].copy_from_slice(&face);
    Opening {
        faces_read: o.faces_read + 1,
        ..o
    }
}
