// A closed box as a polygon of four edges, and what meets it.
ghost use Rattle.std.specs.Prelude.{◌≡◌, ◌≤ℤ◌, ◌||◌, true, None};
ghost use Rattle.gm_geom.specs.declared.point.Point.{Point};
ghost use Rattle.gm_geom.specs.declared.geometry.Geometry.TheVariants as geo;
ghost use Rattle.gm_geom.specs.Geometry.{areas_of};
ghost use Rattle.gm_geom.specs.Validity.{fault_of};
ghost use Rattle.gm_shapes.specs.Segment as segment;
ghost use Rattle.gm_shapes.specs.Segment.{lone_box};
ghost use Rattle.gm_shapes.specs.Edge.{meets_edge_of};
ghost use Rattle.gm_shapes.specs.Meeting as spec;
ghost use Rattle.gm_shapes.specs.Meeting.{box_area, box_ring, do_intersect, is_in_any};

use crate::bounded::Bounded;
use crate::edge::{Shape, any_edge, any_edge_between};
use crate::segment::{Segment, box_of, do_overlap, is_in_box};
use crate::vertex::{Region, any_point, any_vertex};
use gm_geom::{Box2, Geometry, Point};

/// A closed box whose low corner is not past its high one.
#[derive(Clone, Copy, Debug)]
pub struct ClosedBox {
    pub area: Box2,
    ghost across: { area.low.x ≤ℤ area.high.x },
    ghost along: { area.low.y ≤ℤ area.high.y },
    ghost points_inside: { (p : Point) → is_in_any (areas_of (box_area area)) p ≡ true →
        segment.do_overlap (lone_box p) area ≡ true },
}

impl ClosedBox {
    pub fn of(area: Box2) -> ClosedBox
        requires across { area.low.x ≤ℤ area.high.x }
        requires along { area.low.y ≤ℤ area.high.y }
        ensures { result.area ≡ area }
    {
        ClosedBox { area }
    }

    /// The corners, the least first and again last.
    pub fn corners(&self) -> [Point; 5]
        ensures { result ≡ box_ring self.now.area }
    {
        let Box2 { low, high } = self.area;
        let low_right = Point {
            x: high.x,
            y: low.y,
        };
        let high_left = Point {
            x: low.x,
            y: high.y,
        };
        [low, low_right, high, high_left, low]
    }
}

impl Shape for ClosedBox {
    ghost met = { λ it edge. meets_edge_of (box_area it.area) edge };

    fn meets(&self, edge: Segment) -> bool {
        do_overlap(box_of(edge), self.area) && any_edge_between(&edge, &self.corners())
    }
}

impl Region for ClosedBox {
    ghost held = { λ it p. spec.is_in_any (areas_of (box_area it.area)) p };

    fn holds(&self, p: Point) -> bool {
        is_in_box(p, self.area)
    }
}

/// Whether a geometry meets a closed box, taken as a polygon of four edges, which may be
/// degenerate. It is exact, and takes no memory.
pub fn meets_box(geometry: &Geometry, area: Box2) -> bool
    requires kept { fault_of geometry.now ≡ None }
    requires across { area.low.x ≤ℤ area.high.x }
    requires along { area.low.y ≤ℤ area.high.y }
    ensures { result ≡ do_intersect geometry.now (box_area area) }
{
    let closed = ClosedBox::of(area);
    if let Geometry::Point(point) = geometry {
        return is_lone_in(*point, &closed);
    }
    let geometry = Bounded::of(geometry);
    do_overlap(geometry.bounds, area) && have_common_point(&geometry, &closed)
}

fn is_lone_in(point: Point, closed: &ClosedBox) -> bool
    ensures { result ≡ do_intersect (geo.Point point) (box_area closed.now.area) }
{
    is_in_box(point, closed.area)
}

// A vertex in the box, or a corner in a polygon, settles it without a look at the edges.
fn have_common_point(geometry: &Bounded<'_>, closed: &ClosedBox) -> bool
    ensures { result ≡ do_intersect geometry.now.geometry.now (box_area closed.now.area) }
{
    has_inner_vertex(geometry, closed) || any_edge(closed, geometry.geometry)
}

fn has_inner_vertex(geometry: &Bounded<'_>, closed: &ClosedBox) -> bool
    ensures { result ≡ spec.has_vertex_in geometry.now.geometry.now (box_area closed.now.area) ||
        spec.has_vertex_in (box_area closed.now.area) geometry.now.geometry.now }
{
    any_vertex(closed, geometry.geometry) || any_point(geometry, &closed.corners())
}
