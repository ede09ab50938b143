// Boxes as members of a bound.
ghost use Rattle.gm_bounds.specs.ClosedBox as spec;

use crate::member::Member;
use gm_base::NoMemory;
use gm_geom::{Box2, high_corner, low_corner};
use std::alloc::Global;

impl Member for Box2 {
    ghost met = { spec.met };

    ghost joined = { spec.joined };

    ghost is_void = { spec.is_void };

    fn meet(&self, _alloc: Global, other: &Box2) -> Result<Box2, NoMemory> {
        Ok(Box2 {
            low: high_corner(self.low, other.low),
            high: low_corner(self.high, other.high),
        })
    }

    fn join(self, other: Box2) -> Box2 {
        Box2 {
            low: low_corner(self.low, other.low),
            high: high_corner(self.high, other.high),
        }
    }

    fn is_empty(&self) -> bool {
        self.high.x < self.low.x || self.high.y < self.low.y
    }
}
