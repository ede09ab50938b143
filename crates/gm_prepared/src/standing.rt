// Whether a point is in a polygon and on none of its edges, of which those at its height are known.
ghost use Rattle.std.specs.Prelude.{◌≡◌};
ghost use Rattle.gm_prepared.specs.Standing as spec;
ghost use Rattle.gm_prepared.specs.Standing.{no_edges, with_edge, after};

use crate::Edge;
use crate::area::is_one_area;
use gm_geom::Point;
use gm_shapes::{is_crossed, segments_meet};

// How a point stands to some edges of the polygon of this number: whether it is on one of them, and
// whether its ray crosses an odd number of them.
#[derive(Clone, Copy)]
pub(crate) struct Standing {
    pub area: Option<u32>,
    pub on_edge: bool,
    pub odd: bool,
}

impl Standing {
    fn of_no_edges() -> Standing
        ensures { result ≡ no_edges }
    {
        Standing {
            area: None,
            on_edge: false,
            odd: false,
        }
    }

    fn is_inside(self) -> bool
        ensures { result ≡ spec.is_inside self }
    {
        self.odd && !self.on_edge
    }

    // The point is inside, and the edge is of another polygon.
    fn is_settled(self, edge: &Edge) -> bool
        ensures { result ≡ spec.is_settled self edge.now }
    {
        self.is_inside() && !is_one_area(self.area, edge.area)
    }

    fn after(self, p: Point, edge: &Edge) -> Standing
        ensures { result ≡ after p self edge.now }
    {
        if is_one_area(self.area, edge.area) {
            self.with_edge(p, edge)
        } else {
            Standing::of_no_edges().with_edge(p, edge)
        }
    }

    fn with_edge(self, p: Point, edge: &Edge) -> Standing
        ensures { result ≡ with_edge p self edge.now }
    {
        Standing {
            area: edge.area,
            on_edge: self.on_edge || segments_meet(p, p, edge.a, edge.b),
            odd: self.odd != is_crossed(p, edge.segment()),
        }
    }
}

// The edges of each polygon stand next to one another.
pub(crate) fn has_inside(p: Point, edges: &[Edge]) -> bool
    ensures { result ≡ spec.has_inside p no_edges edges.now }
{
    let mut standing = Standing::of_no_edges();
    'edges: for edge in edges {
        if standing.is_settled(edge) {
            return true;
        }
        standing = standing.after(p, edge);
    }
    standing.is_inside()
}
