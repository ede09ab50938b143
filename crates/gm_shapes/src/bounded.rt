// A geometry whose bounds are looked at first.
ghost use Rattle.std.specs.Prelude.{◌≡◌, true, None};
ghost use Rattle.gm_geom.specs.declared.point.Point.{Point};
ghost use Rattle.gm_geom.specs.Geometry.{areas_of, points_of};
ghost use Rattle.gm_geom.specs.Validity.{fault_of};
ghost use Rattle.gm_geom.specs.Extent.{HoldsAll};
ghost use Rattle.gm_shapes.specs.declared.segment.Segment.{Segment};
ghost use Rattle.gm_shapes.specs.Segment as spec;
ghost use Rattle.gm_shapes.specs.Segment.{lone_box};
ghost use Rattle.gm_shapes.specs.Edge.{meets_edge_of};
ghost use Rattle.gm_shapes.specs.Meeting.{is_in_any};

use crate::edge::{Shape, any_edge};
use crate::segment::{Segment, box_of, do_overlap, is_in_box};
use crate::vertex::{Region, is_in_any};
use gm_geom::{Box2, Geometry, Point, bounds};

/// A geometry with its bounds: what lies outside of them costs one look.
#[derive(Clone, Copy, Debug)]
pub struct Bounded<'a> {
    pub geometry: &'a Geometry,
    pub bounds: Box2,
    ghost points_inside: { (p : Point) → is_in_any (areas_of geometry.now) p ≡ true →
        spec.do_overlap (lone_box p) bounds ≡ true },
    ghost edges_inside: { (s : Segment) → meets_edge_of geometry.now s ≡ true →
        spec.do_overlap (spec.box_of s) bounds ≡ true },
}

impl<'a> Bounded<'a> {
    /// It takes no memory.
    pub fn of(geometry: &'a Geometry) -> Bounded<'a>
        requires { fault_of geometry.now ≡ None }
        ensures same { result.geometry.now ≡ geometry.now }
        ensures held { HoldsAll result.bounds (points_of geometry.now) }
    {
        let extent = bounds(geometry);
        Bounded {
            geometry,
            bounds: extent,
        }
    }
}

impl Shape for Bounded<'_> {
    ghost met = { λ it edge. meets_edge_of it.geometry.now edge };

    fn meets(&self, edge: Segment) -> bool {
        do_overlap(box_of(edge), self.bounds) && any_edge(&edge, self.geometry)
    }
}

impl Region for Bounded<'_> {
    ghost held = { λ it p. is_in_any (areas_of it.geometry.now) p };

    fn holds(&self, p: Point) -> bool {
        is_in_box(p, self.bounds) && is_in_any(p, self.geometry)
    }
}
