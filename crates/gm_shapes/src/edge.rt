// The edges of a geometry, and whether one of them meets a shape.
ghost use Rattle.std.specs.Prelude.{◌≡◌, Bool, map};
ghost use Rattle.std.specs.List.{list_any};
ghost use Rattle.gm_geom.specs.Geometry.{joined};
ghost use Rattle.gm_shapes.specs.Segment.{do_meet};
ghost use Rattle.gm_shapes.specs.Edge.{edges_from, edges_between, edges_between_all};
ghost use Rattle.gm_shapes.specs.Edge.{lone_edge, edges_of, meets_edge_of};

use crate::Segment;
use crate::segment::do_segments_meet;
use gm_geom::{Areas, Geometry, Point, Points};

/// A shape that an edge may meet.
pub trait Shape {
    ghost use Rattle.gm_shapes.specs.declared.segment.Segment.{Segment};

    ghost met: { Self → Segment → Bool };

    fn meets(&self, edge: Segment) -> bool
        ensures { result ≡ met self.now edge };
}

impl Shape for Segment {
    ghost met = { do_meet };

    fn meets(&self, edge: Segment) -> bool {
        do_segments_meet(*self, edge)
    }
}

impl Shape for Geometry {
    ghost met = { λ geometry edge. meets_edge_of geometry edge };

    fn meets(&self, edge: Segment) -> bool {
        any_edge(&edge, self)
    }
}

/// Whether the shape meets an edge of the geometry, a lone point counting as an edge.
pub fn any_edge<S: Shape>(shape: &S, geometry: &Geometry) -> bool
    ensures { result ≡ list_any (S.met shape.now) (edges_of geometry.now) }
{
    match geometry {
        Geometry::Point(point) => any_lone(shape, &[*point]),
        Geometry::Line(points) => any_edge_between(shape, points.as_slice()),
        Geometry::Area(rings) => any_edge_between_all(shape, rings.as_slice()),
        Geometry::ManyPoints(points) => any_lone(shape, points.as_slice()),
        Geometry::ManyLines(lines) => any_edge_between_all(shape, lines.as_slice()),
        Geometry::ManyAreas(areas) => any_around(shape, areas),
    }
}

#[tactic(auto, using(crate::proofs::Walks::found_point))]
fn any_lone<S: Shape>(shape: &S, points: &[Point]) -> bool
    ensures { result ≡ list_any (S.met shape.now) (map lone_edge points.now) }
{
    'points: for point in points {
        let edge = Segment {
            start: *point,
            end: *point,
        };
        if shape.meets(edge) {
            return true;
        }
    }
    false
}

#[tactic(auto, using(crate::proofs::Walks::found_area))]
fn any_around<S: Shape>(shape: &S, areas: &Areas) -> bool
    ensures { result ≡ list_any (S.met shape.now) (edges_between_all (joined areas.now)) }
{
    'areas: for rings in areas.as_slice() {
        if any_edge_between_all(shape, rings.as_slice()) {
            return true;
        }
    }
    false
}

#[tactic(auto, using(crate::proofs::Walks::found_line))]
pub(crate) fn any_edge_between_all<S: Shape>(shape: &S, lines: &[Points]) -> bool
    ensures { result ≡ list_any (S.met shape.now) (edges_between_all lines.now) }
{
    'lines: for line in lines {
        if any_edge_between(shape, line.as_slice()) {
            return true;
        }
    }
    false
}

/// Whether the shape meets a segment between neighbours of the points.
pub fn any_edge_between<S: Shape>(shape: &S, points: &[Point]) -> bool
    ensures { result ≡ list_any (S.met shape.now) (edges_between points.now) }
{
    match points {
        [first, rest @ ..] => any_from(shape, *first, rest),
        _ => false,
    }
}

// The same for the edges of the way from a point along others.
fn any_from<S: Shape>(shape: &S, mut start: Point, points: &[Point]) -> bool
    ensures { result ≡ list_any (S.met shape.now) (edges_from start points.now) }
{
    'points: for point in points {
        let edge = Segment { start, end: *point };
        if shape.meets(edge) {
            return true;
        }
        start = *point;
    }
    false
}
