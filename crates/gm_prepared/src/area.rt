// Whether a point is in a polygon of which the edges at its height are known.
ghost use Rattle.std.specs.Prelude.{◌≡◌, ◌&&◌, ◌||◌, not, false, None};
ghost use Rattle.gm_shapes.specs.Segment.{do_meet};
ghost use Rattle.gm_shapes.specs.Edge.{lone_edge};
ghost use Rattle.gm_prepared.specs.Edge.{segment_of};
ghost use Rattle.gm_prepared.specs.Area as spec;
ghost use Rattle.gm_prepared.specs.Area.{is_held};

use crate::Edge;
use gm_geom::Point;
use gm_shapes::{is_crossed, segments_meet};

// The edges of each polygon stand next to one another.
pub(crate) fn is_held(p: Point, edges: &[Edge]) -> bool
    ensures { result ≡ is_held p None false edges.now }
{
    let mut area = None;
    let mut odd = false;
    'edges: for edge in edges {
        if is_settled(p, area, odd, edge) {
            return true;
        }
        odd = odd != is_crossed(p, edge.segment());
        area = edge.area;
    }
    odd
}

// The point lies on the edge, or the polygon in front of it has an odd number of crossings.
fn is_settled(p: Point, area: Option<u32>, odd: bool, edge: &Edge) -> bool
    ensures { result ≡ (do_meet (lone_edge p) (segment_of edge.now) ||
        (odd && not (spec.is_one_area area edge.now.area))) }
{
    segments_meet(p, p, edge.a, edge.b) || odd && !is_one_area(area, edge.area)
}

pub(crate) fn is_one_area(one: Option<u32>, other: Option<u32>) -> bool
    ensures { result ≡ spec.is_one_area one other }
{
    match (one, other) {
        (None, None) => true,
        (Some(one), Some(other)) => one == other,
        (None, Some(_)) => false,
        (Some(_), None) => false,
    }
}
