// The opening whose lines are being read. No function here has a `requires`.
ghost use Rattle.std.specs.Prelude.{◌≡◌};
ghost use Rattle.session.specs.Session.{verts_due, due, idle, begun};

use forms::line::Head;

// Its first line, and how many of its vert and face lines were read. Where none of them is due, there is no opening
// under way: it has ended, so that an Option beside it would say the same twice.
#[derive(Clone, Copy)]
pub struct Opening {
    pub head: Head,
    pub verts_read: u32,
    pub faces_read: u32,
}

// An opening of which only the first line was read.
pub fn begun(head: Head) -> Opening
    ensures { result ≡ begun head }
{
    Opening {
        head,
        verts_read: 0,
        faces_read: 0,
    }
}

// No opening.
pub fn idle() -> Opening
    ensures { result ≡ idle }
{
    begun(Head {
        radius: 0.0,
        verts: 0,
        faces: 0,
    })
}

// Whether a vert line is due.
pub fn verts_due(o: Opening) -> bool
    ensures { result ≡ verts_due o }
{
    o.verts_read < o.head.verts
}

// Whether a line is due.
pub fn due(o: Opening) -> bool
    ensures { result ≡ due o }
{
    verts_due(o) | (o.faces_read < o.head.faces)
}
