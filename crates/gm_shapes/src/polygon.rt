// Points on the edges of a polygon, and in it, by the even-odd rule.
ghost use Rattle.std.specs.Prelude.{◌≡◌};
ghost use Rattle.std.specs.List.{count_by};
ghost use Rattle.gm_shapes.specs.Edge.{edges_from, edges_between};
ghost use Rattle.gm_shapes.specs.Polygon as spec;
ghost use Rattle.gm_shapes.specs.Polygon.{is_on_edge, is_in_polygon, is_odd, crosses};

use crate::Segment;
use crate::edge::any_edge_between_all;
use crate::segment::side;
use gm_geom::{Point, Points, Rings};

/// Whether a point lies on an edge of one of the rings. It is exact, and takes no memory.
pub fn on_edge(p: Point, rings: &Rings) -> bool
    ensures { result ≡ is_on_edge p rings.now }
{
    let lone = Segment { start: p, end: p };
    any_edge_between_all(&lone, rings.as_slice())
}

/// Whether a point is in a polygon, by the even-odd rule: it lies on an edge, or the ray from it
/// towards greater x crosses an odd number of edges of all rings. The upper end of an edge does not
/// count. Rings may cross themselves. It is exact, and takes no memory.
pub fn in_area(p: Point, rings: &Rings) -> bool
    ensures { result ≡ is_in_polygon p rings.now }
{
    on_edge(p, rings) || is_around(p, rings.as_slice())
}

pub(crate) fn is_around(p: Point, rings: &[Points]) -> bool
    ensures { result ≡ spec.is_around p rings.now }
{
    let mut odd = false;
    'rings: for ring in rings {
        odd = odd != crosses_oddly(p, ring.as_slice());
    }
    odd
}

pub(crate) fn crosses_oddly(p: Point, ring: &[Point]) -> bool
    ensures { result ≡ is_odd (count_by (crosses p) (edges_between ring.now)) }
{
    match ring {
        [first, rest @ ..] => crosses_oddly_from(p, *first, rest),
        _ => false,
    }
}

fn crosses_oddly_from(p: Point, mut start: Point, points: &[Point]) -> bool
    ensures { result ≡ is_odd (count_by (crosses p) (edges_from start points.now)) }
{
    let mut odd = false;
    'points: for point in points {
        odd = odd != is_crossed(p, Segment { start, end: *point });
        start = *point;
    }
    odd
}

/// Whether the ray from a point towards greater x crosses an edge, whose upper end does not count.
pub fn is_crossed(p: Point, edge: Segment) -> bool
    ensures { result ≡ crosses p edge }
{
    if edge.end.y < edge.start.y {
        is_crossed_up(p, edge.end, edge.start)
    } else {
        is_crossed_up(p, edge.start, edge.end)
    }
}

fn is_crossed_up(p: Point, low: Point, high: Point) -> bool
    ensures { result ≡ spec.crosses_up p low high }
{
    is_level(p, low, high) && side(low, high, p) > 0
}

fn is_level(p: Point, low: Point, high: Point) -> bool
    ensures { result ≡ spec.is_level p low high }
{
    low.y <= p.y && p.y < high.y
}
