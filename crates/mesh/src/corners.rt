// The corners of a mesh's faces, for the functions on its edges that rest on each being the number of a vertex: they
// count edges in lots of vertices, or have two halves of a word for the least and the greatest corner of a stretch. A
// function that works with any words takes the slice. No part of `Mesh`, which has the coordinates too: the promises on
// edges hold of any list of such corners.
ghost use Rattle.std.specs.Prelude.{◌≤◌, length};
ghost use Rattle.mesh.specs.Corners.{Below};

// The corners of at most 2,097,152 faces, three to a face, each of a vertex below 1,048,576.
#[derive(Clone, Copy)]
pub struct Corners<'a> {
    pub list: &'a [u32],
    pub ghost few: { length list.now ≤ 6291456 },
    pub ghost below: { Below 1048576 list.now },
}

impl<'a> Corners<'a> {
    ghost use Rattle.std.specs.Prelude.{◌≡◌, ◌/◌};

    // How many faces there are.
    pub fn face_count(self) -> usize
        ensures { result ≡ length self.entry.list.now / 3 }
    {
        self.list.len() / 3
    }
}
