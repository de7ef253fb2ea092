// Where the ranges that the numbers are gone through in end.
// Internal: a function with a `requires` is called by proved code alone.
ghost use Rattle.std.specs.Prelude.{◌<◌, ◌≤◌};

// The ends of ranges still to come, the nearest last: the first `depth` of the list. Nothing is asked of them: they
// decide how many passes are made over the faces, not what is answered.
#[derive(Drop)]
pub struct Ends {
    list: [u64; 384],
    depth: usize,
    ghost in_list: { depth ≤ 384 },
}

impl Ends {
    // No end.
    pub fn new() -> Self {
        Ends {
            list: [0; 384],
            depth: 0,
        }
    }

    // One end more, where there is room.
    pub fn push(&mut self, end: u64) {
        if self.depth < 384 {
            self.list[self.depth] = end;
            self.depth += 1;
        }
    }

    // Where the range from low on ends: at the last end that is between low and top, else at top. That end and those
    // after it are taken off.
    pub fn next(&mut self, low: u64, top: u64) -> u64
        requires { low < top }
        ensures { (low < result) × (result ≤ top) }
    {
        for left in (0..self.depth).rev() {
            self.depth = left;
            let end = self.list[left];
            if low < end && end < top {
                return end;
            }
        }
        top
    }
}
