// Bytes to geometries.
ghost use Rattle.gm_feature.specs.Reader.{Gives, geometry_from, body_from, members_from};
ghost use Rattle.gm_feature.specs.Reader.{point_from, points_from, lines_from, areas_from};

use crate::halt::Halt;
use crate::number::{count_of, i32_of};
use crate::shape::{
    AREA_TAG, LINE_TAG, MANY_AREAS_TAG, MANY_LINES_TAG, MANY_POINTS_TAG, POINT_TAG, has_shape,
};
use gm_base::Items;
use gm_geom::{Areas, Geometry, Lines, Point, Points, check};
use gm_types::GeoKind;
use std::alloc::Global;

/// The bytes of a point: two coordinates of four.
pub const POINT_BYTES: u8 = 8;

/// The least number of bytes of a list: its count.
pub const LIST_BYTES: u8 = 4;

/// A geometry that is kept, and that an attribute of the kind may hold.
#[tactic(auto, unfolding(crate::specs::Reader::geometry_from))]
pub fn geometry_of(alloc: Global, shape: GeoKind, bytes: &[u8]) -> Result<(Geometry, &[u8]), Halt>
    ensures { Gives (λ x. (x.0, x.1.now)) result (geometry_from shape bytes.now) }
{
    let [tag, rest @ ..] = bytes else {
        return Err(Halt::Refused);
    };
    let (geometry, rest) = body_of(alloc, *tag, rest)?;
    if !has_shape(shape, &geometry) {
        return Err(Halt::Refused);
    }
    match check(&geometry) {
        Ok(()) => Ok((geometry, rest)),
        Err(_) => Err(Halt::Refused),
    }
}

#[tactic(auto, unfolding(crate::specs::Reader::body_from))]
fn body_of(alloc: Global, tag: u8, bytes: &[u8]) -> Result<(Geometry, &[u8]), Halt>
    ensures { Gives (λ x. (x.0, x.1.now)) result (body_from tag bytes.now) }
{
    match tag {
        POINT_TAG => {
            let (point, rest) = point_of(bytes)?;
            Ok((Geometry::Point(point), rest))
        }
        LINE_TAG => {
            let (points, rest) = points_of(alloc, bytes)?;
            Ok((Geometry::Line(points), rest))
        }
        AREA_TAG => {
            let (rings, rest) = lines_of(alloc, bytes)?;
            Ok((Geometry::Area(rings), rest))
        }
        MANY_POINTS_TAG => {
            let (points, rest) = points_of(alloc, bytes)?;
            Ok((Geometry::ManyPoints(points), rest))
        }
        MANY_LINES_TAG => {
            let (lines, rest) = lines_of(alloc, bytes)?;
            Ok((Geometry::ManyLines(lines), rest))
        }
        MANY_AREAS_TAG => {
            let (areas, rest) = areas_of(alloc, bytes)?;
            Ok((Geometry::ManyAreas(areas), rest))
        }
        _ => Err(Halt::Refused),
    }
}

#[tactic(auto, unfolding(crate::specs::Reader::point_from))]
fn point_of(bytes: &[u8]) -> Result<(Point, &[u8]), Halt>
    ensures { Gives (λ x. (x.0, x.1.now)) result (point_from bytes.now) }
{
    let (x, rest) = i32_of(bytes)?;
    let (y, rest) = i32_of(rest)?;
    Ok((Point { x, y }, rest))
}

#[tactic(auto, unfolding(crate::specs::Reader::points_from))]
fn points_of(alloc: Global, bytes: &[u8]) -> Result<(Points, &[u8]), Halt>
    ensures { Gives (λ x. (x.0, x.1.now)) result (points_from bytes.now) }
{
    let (count, rest) = count_of(POINT_BYTES, bytes)?;
    many_points(alloc, count, rest)
}

fn many_points(alloc: Global, count: u32, bytes: &[u8]) -> Result<(Points, &[u8]), Halt>
    ensures { Gives (λ x. (x.0, x.1.now)) result (members_from point_from count bytes.now) }
{
    let mut points = Vec::with_capacity(alloc, count as usize)?;
    let mut rest = bytes;
    'members: for _ in 0..count {
        let (point, after) = point_of(rest)?;
        points.push(point)?;
        rest = after;
    }
    Ok((Items::from_vec(points), rest))
}

#[tactic(auto, unfolding(crate::specs::Reader::lines_from))]
fn lines_of(alloc: Global, bytes: &[u8]) -> Result<(Lines, &[u8]), Halt>
    ensures { Gives (λ x. (x.0, x.1.now)) result (lines_from bytes.now) }
{
    let (count, rest) = count_of(LIST_BYTES, bytes)?;
    many_lines(alloc, count, rest)
}

fn many_lines(alloc: Global, count: u32, bytes: &[u8]) -> Result<(Lines, &[u8]), Halt>
    ensures { Gives (λ x. (x.0, x.1.now)) result (members_from points_from count bytes.now) }
{
    let mut lines = Vec::with_capacity(alloc, count as usize)?;
    let mut rest = bytes;
    'members: for _ in 0..count {
        let (line, after) = points_of(alloc, rest)?;
        lines.push(line)?;
        rest = after;
    }
    Ok((Items::from_vec(lines), rest))
}

#[tactic(auto, unfolding(crate::specs::Reader::areas_from))]
fn areas_of(alloc: Global, bytes: &[u8]) -> Result<(Areas, &[u8]), Halt>
    ensures { Gives (λ x. (x.0, x.1.now)) result (areas_from bytes.now) }
{
    let (count, rest) = count_of(LIST_BYTES, bytes)?;
    many_areas(alloc, count, rest)
}

fn many_areas(alloc: Global, count: u32, bytes: &[u8]) -> Result<(Areas, &[u8]), Halt>
    ensures { Gives (λ x. (x.0, x.1.now)) result (members_from lines_from count bytes.now) }
{
    let mut areas = Vec::with_capacity(alloc, count as usize)?;
    let mut rest = bytes;
    'members: for _ in 0..count {
        let (rings, after) = lines_of(alloc, rest)?;
        areas.push(rings)?;
        rest = after;
    }
    Ok((Items::from_vec(areas), rest))
}
