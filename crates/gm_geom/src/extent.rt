// The extent of a geometry.
ghost use Rattle.std.specs.Prelude.{◌≡◌, None, Some, fold};
ghost use Rattle.gm_geom.specs.Geometry.{points_of, joined};
ghost use Rattle.gm_geom.specs.Validity.{fault_of};
ghost use Rattle.gm_geom.specs.Extent as spec;
ghost use Rattle.gm_geom.specs.Extent.{IsLeastBox, widened};

use crate::{Areas, Box2, Geometry, Point, Points};

/// The least box that holds all points of a geometry. It takes no memory.
pub fn bounds(geometry: &Geometry) -> Box2
    requires { fault_of geometry.now ≡ None }
    ensures least { IsLeastBox result (points_of geometry.now) }
    ensures extent { spec.extent_of (points_of geometry.now) ≡ Some result }
{
    extent_of(geometry).unwrap()
}

fn extent_of(geometry: &Geometry) -> Option<Box2>
    ensures { result ≡ spec.extent_of (points_of geometry.now) }
{
    match geometry {
        Geometry::Point(point) => widen(None, *point),
        Geometry::Line(points) => widen_by(None, points.as_slice()),
        Geometry::Area(rings) => widen_by_all(None, rings.as_slice()),
        Geometry::ManyPoints(points) => widen_by(None, points.as_slice()),
        Geometry::ManyLines(lines) => widen_by_all(None, lines.as_slice()),
        Geometry::ManyAreas(areas) => extent_of_areas(areas),
    }
}

fn widen(extent: Option<Box2>, point: Point) -> Option<Box2>
    ensures { result ≡ widened extent point }
{
    match extent {
        None => Some(Box2 {
            low: point,
            high: point,
        }),
        Some(held) => Some(Box2 {
            low: low_corner(held.low, point),
            high: high_corner(held.high, point),
        }),
    }
}

/// The lesser of both coordinates.
pub fn low_corner(one: Point, other: Point) -> Point
    ensures { result ≡ spec.low_corner one other }
{
    Point {
        x: one.x.min(other.x),
        y: one.y.min(other.y),
    }
}

/// The greater of both coordinates.
pub fn high_corner(one: Point, other: Point) -> Point
    ensures { result ≡ spec.high_corner one other }
{
    Point {
        x: one.x.max(other.x),
        y: one.y.max(other.y),
    }
}

fn widen_by(mut extent: Option<Box2>, points: &[Point]) -> Option<Box2>
    ensures { result ≡ fold widened extent points.now }
{
    'points: for point in points {
        extent = widen(extent, *point);
    }
    extent
}

fn widen_by_all(mut extent: Option<Box2>, lines: &[Points]) -> Option<Box2>
    ensures { result ≡ fold widened extent (joined lines.now) }
{
    'lines: for line in lines {
        extent = widen_by(extent, line.as_slice());
    }
    extent
}

fn extent_of_areas(areas: &Areas) -> Option<Box2>
    ensures { result ≡ spec.extent_of (joined (joined areas.now)) }
{
    let mut extent = None;
    'areas: for rings in areas.as_slice() {
        extent = widen_by_all(extent, rings.as_slice());
    }
    extent
}
