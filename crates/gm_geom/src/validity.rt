// Which geometries are kept.
ghost use Rattle.std.specs.Prelude.{◌≡◌, ◌||◌, ◌^◌, ◌-◌, min, nat_lt};
ghost use Rattle.std.specs.Prelude.{length, None, Some, MatchResult};
ghost use Rattle.std.specs.List.{list_all, list_any};
ghost use Rattle.gm_geom.specs.Geometry.{joined, points_of, lines_of, rings_of};
ghost use Rattle.gm_geom.specs.Validity as spec;

use crate::{Areas, Geometry, Point, Points, Rings};
use thiserror::Error;

/// The greatest number of points of a geometry.
pub const POINT_LIMIT: usize = 10_000;

/// 180 degrees, in units.
const LONGITUDE_LIMIT: u32 = 1_800_000_000;

/// 90 degrees, in units.
const LATITUDE_LIMIT: u32 = 900_000_000;

/// The least number of points of a ring.
const RING_LEAST: usize = 4;

/// Why a geometry is not kept. Each comes only where none before it does.
#[derive(Clone, Copy, Debug, PartialEq, Eq, Error)]
pub enum GeomFault {
    #[error("over 10,000 points")]
    Many,

    #[error("a coordinate outside the world")]
    Range,

    #[error("an empty list, or a line with one point")]
    Short,

    #[error("a ring with under four points, or one that does not end where it begins")]
    Ring,
}

/// Tests a geometry. It takes no memory.
pub fn check(geometry: &Geometry) -> Result<(), GeomFault>
    ensures { MatchResult result
        (λ _. spec.fault_of geometry.now ≡ None)
        (λ fault. spec.fault_of geometry.now ≡ Some fault) }
{
    if has_many(geometry) {
        return Err(GeomFault::Many);
    }
    if !is_in_world(geometry) {
        return Err(GeomFault::Range);
    }
    if has_empty_list(geometry) || has_short_line(geometry) {
        return Err(GeomFault::Short);
    }
    if !has_closed_rings(geometry) {
        return Err(GeomFault::Ring);
    }
    Ok(())
}

fn has_many(geometry: &Geometry) -> bool
    ensures { result ≡ nat_lt spec.point_limit (length (points_of geometry.now)) }
{
    let count = match geometry {
        Geometry::Point(_) => 1,
        Geometry::Line(points) => points.len(),
        Geometry::Area(rings) => count_of(rings.as_slice()),
        Geometry::ManyPoints(points) => points.len(),
        Geometry::ManyLines(lines) => count_of(lines.as_slice()),
        Geometry::ManyAreas(areas) => count_of_areas(areas),
    };
    count > POINT_LIMIT
}

// The number of points, or the greatest usize where it passes that.
fn count_of(lines: &[Points]) -> usize
    ensures { result ≡ min (length (joined lines.now)) (2 ^ 64 - 1) }
{
    let mut count = 0usize;
    'lines: for line in lines {
        count = count.saturating_add(line.len());
    }
    count
}

fn count_of_areas(areas: &Areas) -> usize
    ensures { result ≡ min (length (joined (joined areas.now))) (2 ^ 64 - 1) }
{
    let mut count = 0usize;
    'areas: for rings in areas.as_slice() {
        count = count.saturating_add(count_of(rings.as_slice()));
    }
    count
}

fn is_in_world(geometry: &Geometry) -> bool
    ensures { result ≡ list_all spec.is_in_world (points_of geometry.now) }
{
    match geometry {
        Geometry::Point(point) => is_point_in_world(*point),
        Geometry::Line(points) => are_in_world(points.as_slice()),
        Geometry::Area(rings) => all_in_world(rings.as_slice()),
        Geometry::ManyPoints(points) => are_in_world(points.as_slice()),
        Geometry::ManyLines(lines) => all_in_world(lines.as_slice()),
        Geometry::ManyAreas(areas) => areas_in_world(areas),
    }
}

/// Whether a point is within 180 degrees of longitude and 90 of latitude. It takes no memory.
pub fn is_point_in_world(point: Point) -> bool
    ensures { result ≡ spec.is_in_world point }
{
    is_within(LONGITUDE_LIMIT, point.x) && is_within(LATITUDE_LIMIT, point.y)
}

fn is_within(limit: u32, coordinate: i32) -> bool
    ensures { result ≡ spec.is_within limit coordinate }
{
    coordinate.unsigned_abs() <= limit
}

fn are_in_world(points: &[Point]) -> bool
    ensures { result ≡ list_all spec.is_in_world points.now }
{
    points.iter().all(|point| is_point_in_world(*point))
}

#[tactic(auto, using(crate::proofs::Lists::fails_in))]
fn all_in_world(lines: &[Points]) -> bool
    ensures { result ≡ list_all spec.is_in_world (joined lines.now) }
{
    'lines: for line in lines {
        if !are_in_world(line.as_slice()) {
            return false;
        }
    }
    true
}

#[tactic(auto, using(crate::proofs::Lists::fails_in_two))]
fn areas_in_world(areas: &Areas) -> bool
    ensures { result ≡ list_all spec.is_in_world (joined (joined areas.now)) }
{
    'areas: for rings in areas.as_slice() {
        if !all_in_world(rings.as_slice()) {
            return false;
        }
    }
    true
}

fn has_empty_list(geometry: &Geometry) -> bool
    ensures { result ≡ spec.has_empty_list geometry.now }
{
    match geometry {
        Geometry::Point(_) => false,
        Geometry::Line(points) => is_empty(points),
        Geometry::Area(rings) => is_hollow(rings),
        Geometry::ManyPoints(points) => is_empty(points),
        Geometry::ManyLines(lines) => is_hollow(lines),
        Geometry::ManyAreas(areas) => has_no_area(areas) || has_hollow(areas),
    }
}

fn is_empty(points: &Points) -> bool
    ensures { result ≡ spec.is_empty points.now }
{
    points.is_empty()
}

// Whether the list or one of its lists is empty.
fn is_hollow(lists: &Rings) -> bool
    ensures { result ≡ spec.is_hollow lists.now }
{
    has_no_list(lists) || has_empty(lists)
}

fn has_empty(lists: &Rings) -> bool
    ensures { result ≡ list_any spec.is_empty lists.now }
{
    lists.as_slice().iter().any(|list| is_empty(list))
}

fn has_no_list(lists: &Rings) -> bool
    ensures { result ≡ spec.is_empty lists.now }
{
    lists.is_empty()
}

fn has_hollow(areas: &Areas) -> bool
    ensures { result ≡ list_any spec.is_hollow areas.now }
{
    areas.as_slice().iter().any(|rings| is_hollow(rings))
}

fn has_no_area(areas: &Areas) -> bool
    ensures { result ≡ spec.is_empty areas.now }
{
    areas.is_empty()
}

fn has_short_line(geometry: &Geometry) -> bool
    ensures { result ≡ list_any spec.has_one_point (lines_of geometry.now) }
{
    match geometry {
        Geometry::Line(points) => points.len() < 2,
        Geometry::ManyLines(lines) => lines.as_slice().iter().any(|line| line.len() < 2),
        Geometry::Point(_) | Geometry::Area(_) | Geometry::ManyPoints(_) | Geometry::ManyAreas(_) =>
            false,
    }
}

fn has_closed_rings(geometry: &Geometry) -> bool
    ensures { result ≡ list_all spec.is_closed (rings_of geometry.now) }
{
    match geometry {
        Geometry::Area(rings) => are_closed(rings),
        Geometry::ManyAreas(areas) => all_closed(areas),
        Geometry::Point(_) | Geometry::Line(_) | Geometry::ManyPoints(_) | Geometry::ManyLines(_) =>
            true,
    }
}

#[tactic(auto, using(crate::proofs::Lists::fails_in))]
fn all_closed(areas: &Areas) -> bool
    ensures { result ≡ list_all spec.is_closed (joined areas.now) }
{
    'areas: for rings in areas.as_slice() {
        if !are_closed(rings) {
            return false;
        }
    }
    true
}

fn are_closed(rings: &Rings) -> bool
    ensures { result ≡ list_all spec.is_closed rings.now }
{
    rings
        .as_slice()
        .iter()
        .all(|ring| is_closed(ring.as_slice()))
}

fn is_closed(ring: &[Point]) -> bool
    ensures { result ≡ spec.is_closed ring.now }
{
    match ring {
        [first, .., last] => ring.len() >= RING_LEAST && is_same(*first, *last),
        _ => false,
    }
}

fn is_same(one: Point, other: Point) -> bool
    ensures { result ≡ spec.is_same one other }
{
    one.x == other.x && one.y == other.y
}
