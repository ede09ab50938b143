// Whether two geometries meet, and whether a point is within one.
ghost use Rattle.std.specs.Prelude.{◌≡◌, ◌||◌, not, None};
ghost use Rattle.std.specs.List.{list_any};
ghost use Rattle.gm_geom.specs.Geometry.{areas_of};
ghost use Rattle.gm_geom.specs.Validity.{fault_of, is_empty};
ghost use Rattle.gm_shapes.specs.Meeting as spec;
ghost use Rattle.gm_shapes.specs.Meeting.{do_intersect};

use crate::bounded::Bounded;
use crate::edge::any_edge;
use crate::on_edge;
use crate::polygon::is_around;
use crate::segment::do_overlap;
use crate::vertex::any_vertex;
use gm_geom::{Areas, Geometry, Point, Rings};

/// Whether two geometries meet: an edge of the one meets an edge of the other, a point counting as
/// an edge, or a vertex of the one is in a polygon of the other. It is exact, and takes no memory.
pub fn intersects(one: &Geometry, two: &Geometry) -> bool
    requires one_kept { fault_of one.now ≡ None }
    requires two_kept { fault_of two.now ≡ None }
    ensures { result ≡ do_intersect one.now two.now }
{
    let one = Bounded::of(one);
    let two = Bounded::of(two);
    do_overlap(one.bounds, two.bounds) && have_common_point(&one, &two)
}

// A vertex in a polygon settles it without a look at the pairs of edges.
fn have_common_point(one: &Bounded<'_>, two: &Bounded<'_>) -> bool
    ensures { result ≡ do_intersect one.now.geometry.now two.now.geometry.now }
{
    has_inner_vertex(one, two) || any_edge(two, one.geometry)
}

fn has_inner_vertex(one: &Bounded<'_>, two: &Bounded<'_>) -> bool
    ensures { result ≡ spec.has_vertex_in one.now.geometry.now two.now.geometry.now ||
        spec.has_vertex_in two.now.geometry.now one.now.geometry.now }
{
    has_vertex_in(one, two) || has_vertex_in(two, one)
}

fn has_vertex_in(one: &Bounded<'_>, two: &Bounded<'_>) -> bool
    ensures { result ≡ spec.has_vertex_in one.now.geometry.now two.now.geometry.now }
{
    has_area(two.geometry) && any_vertex(two, one.geometry)
}

/// Whether the geometry has a polygon.
pub fn has_area(geometry: &Geometry) -> bool
    ensures { result ≡ not (is_empty (areas_of geometry.now)) }
{
    match geometry {
        Geometry::Area(_) => true,
        Geometry::ManyAreas(areas) => !areas.is_empty(),
        Geometry::Point(_) | Geometry::Line(_) | Geometry::ManyPoints(_) | Geometry::ManyLines(_) =>
            false,
    }
}

/// Whether a point is in one of the polygons of a geometry and on no edge of that polygon. It is
/// exact, and takes no memory.
pub fn within(p: Point, area: &Geometry) -> bool
    ensures { result ≡ spec.is_within p area.now }
{
    match area {
        Geometry::Area(rings) => is_inside(p, rings),
        Geometry::ManyAreas(areas) => is_inside_one(p, areas),
        Geometry::Point(_) | Geometry::Line(_) | Geometry::ManyPoints(_) | Geometry::ManyLines(_) =>
            false,
    }
}

fn is_inside(p: Point, rings: &Rings) -> bool
    ensures { result ≡ spec.is_inside p rings.now }
{
    !on_edge(p, rings) && is_around(p, rings.as_slice())
}

fn is_inside_one(p: Point, areas: &Areas) -> bool
    ensures { result ≡ list_any (spec.is_inside p) areas.now }
{
    areas.as_slice().iter().any(|rings| is_inside(p, rings))
}
