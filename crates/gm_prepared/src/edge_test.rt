// Tests of edges, and whether one of a list passes.
ghost use Rattle.std.specs.Prelude.{◌≡◌, ◌||◌, Bool};
ghost use Rattle.std.specs.List.{list_any};
ghost use Rattle.gm_shapes.specs.Segment.{do_meet};
ghost use Rattle.gm_prepared.specs.Edge.{segment_of};

use crate::Edge;
use gm_shapes::{Region, Segment, segments_meet};

pub(crate) trait EdgeTest {
    ghost use Rattle.gm_prepared.specs.declared.edge.Edge.{Edge};

    ghost passed: { Self → Edge → Bool };

    fn passes(&self, edge: &Edge) -> bool
        ensures { result ≡ passed self.now edge.now };
}

// Whether the edge meets a segment.
#[derive(Drop)]
pub(crate) struct Meets {
    pub segment: Segment,
}

impl EdgeTest for Meets {
    ghost passed = { λ it edge. do_meet it.segment (segment_of edge) };

    fn passes(&self, edge: &Edge) -> bool {
        segments_meet(self.segment.start, self.segment.end, edge.a, edge.b)
    }
}

// Whether an end of the edge lies in a region.
#[derive(Drop)]
pub(crate) struct Reaches<'a, R: Region> {
    pub region: &'a R,
}

impl<R: Region> EdgeTest for Reaches<'_, R> {
    ghost passed = { λ it edge. R.held it.region.now edge.a || R.held it.region.now edge.b };

    fn passes(&self, edge: &Edge) -> bool {
        self.region.holds(edge.a) || self.region.holds(edge.b)
    }
}

pub(crate) fn any_passes<T: EdgeTest>(test: &T, edges: &[Edge]) -> bool
    ensures { result ≡ list_any (T.passed test.now) edges.now }
{
    'edges: for edge in edges {
        if test.passes(edge) {
            return true;
        }
    }
    false
}
