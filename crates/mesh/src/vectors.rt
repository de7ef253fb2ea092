// Vectors of three floats. No function here has a `requires`.
ghost use Rattle.std.specs.Prelude.{◌≡◌};
ghost use Rattle.mesh.specs.Vectors.{vsub, dot, cross, norm};

use root::root;
use std::ops::Sub;

// A point or a vector.
#[repr(C)]
#[derive(Clone, Copy)]
pub struct V3 {
    pub x: f64,
    pub y: f64,
    pub z: f64,
}

impl Sub for V3 {
    type Output = V3;

    ghost sub_gives = { λ a b r. r ≡ vsub a b };

    // The difference.
    #[tactic(auto, unfolding(crate::specs::Vectors::vsub))]
    fn sub(self, b: V3) -> V3 {
        V3 {
            x: self.x - b.x,
            y: self.y - b.y,
            z: self.z - b.z,
        }
    }
}

impl V3 {
    // The scalar product.
    #[tactic(auto, unfolding(crate::specs::Vectors::dot))]
    pub fn dot(self, b: V3) -> f64
        ensures { result ≡ dot self b }
    {
        self.x * b.x + self.y * b.y + self.z * b.z
    }

    // The vector product.
    #[tactic(auto, unfolding(crate::specs::Vectors::cross))]
    pub fn cross(self, b: V3) -> V3
        ensures { result ≡ cross self b }
    {
        V3 {
            x: self.y * b.z - self.z * b.y,
            y: self.z * b.x - self.x * b.z,
            z: self.x * b.y - self.y * b.x,
        }
    }

    // The length.
    #[tactic(auto, unfolding(crate::specs::Vectors::norm))]
    pub fn norm(self) -> f64
        ensures { result ≡ norm self }
    {
        root(self.dot(self))
    }
}
