// A geometry whose edges stand in bands, and what it meets.
ghost use Rattle.std.specs.Prelude.{◌≡◌, ◌<◌, ◌≤ℤ◌, ◌||◌, not, true, None, Some, IfOk};
ghost use Rattle.std.specs.List.{list_any};
ghost use Rattle.gm_geom.specs.declared.point.Point.{Point};
ghost use Rattle.gm_geom.specs.declared.geometry.Geometry.TheVariants as geo;
ghost use Rattle.gm_geom.specs.Extent.{IsLeastBox, extent_of};
ghost use Rattle.gm_geom.specs.Geometry.{points_of, areas_of};
ghost use Rattle.gm_geom.specs.Validity.{fault_of, is_empty};
ghost use Rattle.gm_shapes.specs.Segment as spec;
ghost use Rattle.gm_shapes.specs.Segment.{lone_box};
ghost use Rattle.gm_shapes.specs.Edge.{meets_edge_of};
ghost use Rattle.gm_shapes.specs.Meeting as meeting;
ghost use Rattle.gm_shapes.specs.Meeting.{do_intersect, is_in_any, is_within, box_area};
ghost use Rattle.gm_prepared.specs.declared.edge.Edge.{Edge};
ghost use Rattle.gm_prepared.specs.Edge.{numbered_edges};
ghost use Rattle.gm_prepared.specs.Band.{bounds_of, count_of, edges_in_band};
ghost use Rattle.gm_prepared.specs.Prepared.{IsBetween};

use crate::EdgeList;
use crate::area::is_held;
use crate::band::band_at;
use crate::copy::copy;
use crate::edge::numbered_edges;
use crate::edge_test::{EdgeTest, Meets, Reaches, any_passes};
use crate::placing::placed;
use crate::standing::has_inside;
use gm_base::NoMemory;
use gm_geom::{Box2, Geometry, Point, bounds, extents_are_least};
use gm_shapes::{
    Bounded, ClosedBox, Region, Segment, Shape, any_edge, any_edge_between, any_point, any_vertex,
    box_of, do_overlap, has_area, holds_each_edge, is_in_box, lies_in_bounds_where_in_area,
    lies_in_bounds_where_within, meeting_is_symmetric, overlaps_a_box_it_meets,
    overlaps_where_meeting, overlaps_where_meeting_an_edge,
};
use std::alloc::Global;
use std::marker::Model;

/// A geometry that is prepared for tests against many others: its edges stand in bands of height,
/// and a test looks at few of them. Contracts see the geometry.
#[derive(Debug, Drop)]
pub struct Prepared {
    geometry: Geometry,
    bounds: Box2,
    lists: Vec<EdgeList>,
}

impl Model for Prepared {
    ghost use Rattle.gm_geom.specs.declared.geometry.Geometry.{Geometry};
    ghost use Rattle.gm_prepared.specs.Prepared.{IsPrepared};

    ghost Value = { Geometry };

    ghost view = { λ it. it.geometry };

    ghost invariant = { λ it. IsPrepared it.geometry it.bounds it.lists.items };
}

impl Prepared {
    /// It keeps a copy of the geometry, and each edge once for each band that it meets.
    pub fn of(alloc: Global, geometry: &Geometry) -> Result<Prepared, NoMemory>
        requires { fault_of geometry.now ≡ None }
        ensures { IfOk result (λ prepared. prepared ≡ geometry.now) }
    {
        holds_each_edge();
        let extent = bounds(geometry);
        let edges = numbered_edges(alloc, geometry)?;
        let lists = placed(alloc, extent, edges.as_slice())?;
        let same = copy(alloc, geometry)?;
        Ok(Prepared {
            geometry: same,
            bounds: extent,
            lists,
        })
    }

    /// The least box that holds all points of the geometry.
    pub fn bounds(&self) -> Box2
        ensures least { IsLeastBox result (points_of self.now) }
        ensures extent { extent_of (points_of self.now) ≡ Some result }
    {
        extents_are_least();
        self.bounds
    }

    /// How many bands there are: as many as the bounds have y values, and 256 at most.
    pub fn bands(&self) -> usize
        ensures { result ≡ count_of (bounds_of self.now) }
    {
        self.lists.len()
    }

    /// The edges that have a y in the band, in the order of the geometry.
    pub fn edges_in(&self, band: usize) -> &EdgeList
        requires { band < count_of (bounds_of self.now) }
        ensures { result.now ≡ edges_in_band self.now band }
    {
        &self.lists[band]
    }

    /// Whether the other geometry meets this one, as `intersects` tells. It takes no memory.
    pub fn meets(&self, other: &Geometry) -> bool
        requires { fault_of other.now ≡ None }
        ensures { result ≡ do_intersect self.now other.now }
    {
        if let Geometry::Point(point) = other {
            return self.meets_point(*point);
        }
        meeting_is_symmetric();
        overlaps_where_meeting();
        let other = Bounded::of(other);
        do_overlap(self.bounds, other.bounds) && self.has_common_point(&other)
    }

    /// Whether a point meets the geometry. It takes no memory.
    pub fn meets_point(&self, p: Point) -> bool
        ensures { result ≡ do_intersect self.now (geo.Point p) }
    {
        meeting_is_symmetric();
        if has_area(&self.geometry) {
            self.holds(p)
        } else {
            Shape::meets(self, Segment { start: p, end: p })
        }
    }

    /// Whether a point is in one of the polygons and on none of its edges, as `within` tells. It
    /// takes no memory.
    pub fn has_within(&self, p: Point) -> bool
        ensures { result ≡ is_within p self.now }
    {
        has_area(&self.geometry) && self.has_within_in_band(p)
    }

    /// Whether a closed box meets the geometry, as `meets_box` tells. It takes no memory.
    pub fn meets_box(&self, area: Box2) -> bool
        requires across { area.low.x ≤ℤ area.high.x }
        requires along { area.low.y ≤ℤ area.high.y }
        ensures { result ≡ do_intersect self.now (box_area area) }
    {
        meeting_is_symmetric();
        overlaps_a_box_it_meets();
        do_overlap(self.bounds, area) && self.has_point_in_box(&ClosedBox::of(area))
    }

    // A vertex in a polygon settles it without a look at the pairs of edges.
    fn has_common_point(&self, other: &Bounded<'_>) -> bool
        ensures { result ≡ do_intersect other.now.geometry.now self.now }
    {
        self.has_inner_vertex(other) || any_edge(self, other.geometry)
    }

    fn has_inner_vertex(&self, other: &Bounded<'_>) -> bool
        ensures { result ≡ meeting.has_vertex_in other.now.geometry.now self.now
            || meeting.has_vertex_in self.now other.now.geometry.now }
    {
        any_vertex(self, other.geometry) || self.has_own_vertex_in(other)
    }

    fn has_own_vertex_in(&self, other: &Bounded<'_>) -> bool
        ensures { result ≡ meeting.has_vertex_in self.now other.now.geometry.now }
    {
        has_area(other.geometry) && self.has_vertex_in(other, other.bounds)
    }

    fn has_point_in_box(&self, closed: &ClosedBox) -> bool
        ensures { result ≡ do_intersect (box_area closed.now.area) self.now }
    {
        self.has_corner_in_box(closed) || any_edge_between(self, &closed.corners())
    }

    fn has_corner_in_box(&self, closed: &ClosedBox) -> bool
        ensures { result ≡ meeting.has_vertex_in (box_area closed.now.area) self.now
            || meeting.has_vertex_in self.now (box_area closed.now.area) }
    {
        self.has_vertex_in(closed, closed.area) || any_point(self, &closed.corners())
    }

    fn holds_in_band(&self, p: Point) -> bool
        requires { not (is_empty (areas_of self.now)) ≡ true }
        ensures { result ≡ is_in_any (areas_of self.now) p }
    {
        lies_in_bounds_where_in_area();
        is_in_box(p, self.bounds) && is_held(p, self.lists[band_at(self.bounds, p.y)].as_slice())
    }

    fn has_within_in_band(&self, p: Point) -> bool
        requires { not (is_empty (areas_of self.now)) ≡ true }
        ensures { result ≡ is_within p self.now }
    {
        lies_in_bounds_where_within();
        is_in_box(p, self.bounds) && has_inside(p, self.lists[band_at(self.bounds, p.y)].as_slice())
    }

    // Whether a vertex lies in the region, which lies between the heights of the box.
    fn has_vertex_in<R: Region>(&self, region: &R, area: Box2) -> bool
        requires { (p : Point) → R.held region.now p ≡ true →
            spec.do_overlap (lone_box p) area ≡ true }
        ensures { result ≡ list_any (R.held region.now) (points_of self.now) }
    {
        // Read for the proof alone: its type says that the geometry is kept.
        let _ = &self.geometry;
        self.any_between(&Reaches { region }, area.low.y, area.high.y)
    }

    // Whether an edge passes a test that only edges between the two heights pass.
    fn any_between<T: EdgeTest>(&self, test: &T, low: i32, high: i32) -> bool
        requires { (e : Edge) → T.passed test.now e ≡ true → IsBetween low high e }
        ensures { result ≡ list_any (T.passed test.now) (numbered_edges self.now) }
    {
        if high < self.bounds.low.y {
            return false;
        }
        if self.bounds.high.y < low {
            return false;
        }
        let first = band_at(self.bounds, low.max(self.bounds.low.y));
        let last = band_at(self.bounds, high.min(self.bounds.high.y));
        'bands: for k in first..last + 1 {
            if any_passes(test, self.lists[k].as_slice()) {
                return true;
            }
        }
        false
    }
}

impl Shape for Prepared {
    ghost met = { λ geometry edge. meets_edge_of geometry edge };

    fn meets(&self, edge: Segment) -> bool {
        overlaps_where_meeting_an_edge();
        let extent = box_of(edge);
        do_overlap(extent, self.bounds)
            && self.any_between(&Meets { segment: edge }, extent.low.y, extent.high.y)
    }
}

impl Region for Prepared {
    ghost held = { λ geometry p. is_in_any (areas_of geometry) p };

    fn holds(&self, p: Point) -> bool {
        has_area(&self.geometry) && self.holds_in_band(p)
    }
}
