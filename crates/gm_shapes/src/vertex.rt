// The vertices of a geometry, and whether one of them lies in a region.
ghost use Rattle.std.specs.Prelude.{◌≡◌, Bool};
ghost use Rattle.std.specs.List.{list_any};
ghost use Rattle.gm_geom.specs.Geometry.{areas_of, joined, points_of};
ghost use Rattle.gm_shapes.specs.Meeting as spec;

use crate::in_area;
use gm_geom::{Areas, Geometry, Point, Points};

/// A region that a point may lie in.
pub trait Region {
    ghost use Rattle.gm_geom.specs.declared.point.Point.{Point};

    ghost held: { Self → Point → Bool };

    fn holds(&self, p: Point) -> bool
        ensures { result ≡ held self.now p };
}

impl Region for Geometry {
    ghost held = { λ geometry p. spec.is_in_any (areas_of geometry) p };

    fn holds(&self, p: Point) -> bool {
        is_in_any(p, self)
    }
}

/// Whether a vertex of the geometry lies in the region.
pub fn any_vertex<R: Region>(region: &R, geometry: &Geometry) -> bool
    ensures { result ≡ list_any (R.held region.now) (points_of geometry.now) }
{
    match geometry {
        Geometry::Point(point) => region.holds(*point),
        Geometry::Line(points) => any_point(region, points.as_slice()),
        Geometry::Area(rings) => any_point_of_all(region, rings.as_slice()),
        Geometry::ManyPoints(points) => any_point(region, points.as_slice()),
        Geometry::ManyLines(lines) => any_point_of_all(region, lines.as_slice()),
        Geometry::ManyAreas(areas) => any_corner(region, areas),
    }
}

/// Whether one of the points lies in the region.
pub fn any_point<R: Region>(region: &R, points: &[Point]) -> bool
    ensures { result ≡ list_any (R.held region.now) points.now }
{
    'points: for point in points {
        if region.holds(*point) {
            return true;
        }
    }
    false
}

#[tactic(auto, using(crate::proofs::Walks::found_in))]
fn any_point_of_all<R: Region>(region: &R, lines: &[Points]) -> bool
    ensures { result ≡ list_any (R.held region.now) (joined lines.now) }
{
    'lines: for line in lines {
        if any_point(region, line.as_slice()) {
            return true;
        }
    }
    false
}

#[tactic(auto, using(crate::proofs::Walks::found_in_two))]
fn any_corner<R: Region>(region: &R, areas: &Areas) -> bool
    ensures { result ≡ list_any (R.held region.now) (joined (joined areas.now)) }
{
    'areas: for rings in areas.as_slice() {
        if any_point_of_all(region, rings.as_slice()) {
            return true;
        }
    }
    false
}

pub(crate) fn is_in_any(p: Point, geometry: &Geometry) -> bool
    ensures { result ≡ spec.is_in_any (areas_of geometry.now) p }
{
    match geometry {
        Geometry::Area(rings) => in_area(p, rings),
        Geometry::ManyAreas(areas) => is_in_one(p, areas),
        Geometry::Point(_) | Geometry::Line(_) | Geometry::ManyPoints(_) | Geometry::ManyLines(_) =>
            false,
    }
}

fn is_in_one(p: Point, areas: &Areas) -> bool
    ensures { result ≡ spec.is_in_any areas.now p }
{
    areas.as_slice().iter().any(|rings| in_area(p, rings))
}
