// Extents of geometries, from their bytes. Of bytes that spell no such list nothing is said.
ghost use Rattle.std.specs.Prelude.{◌≡◌, fold};
ghost use Rattle.std.specs.Option.{ForSome};
ghost use Rattle.gm_geom.specs.Extent.{widened, extent_of};
ghost use Rattle.gm_geom.specs.Geometry.{joined, points_of};
ghost use Rattle.gm_feature.specs.Reader.{members_from, point_from, points_from};
ghost use Rattle.gm_feature.specs.Reader.{lines_from, areas_from, body_from};

use crate::fronts::{count_at, point_at};
use crate::lists::{LIST_BYTES, POINT_BYTES};
use crate::shape::{
    AREA_TAG, LINE_TAG, MANY_AREAS_TAG, MANY_LINES_TAG, MANY_POINTS_TAG, POINT_TAG,
};
use gm_geom::{Box2, Point, high_corner, low_corner};

fn widen(extent: Option<Box2>, point: Point) -> Option<Box2>
    ensures { result ≡ widened extent point }
{
    match extent {
        None => Some(Box2 {
            low: point,
            high: point,
        }),
        Some(held) => Some(Box2 {
            low: low_corner(held.low, point),
            high: high_corner(held.high, point),
        }),
    }
}

fn by_point(extent: Option<Box2>, bytes: &[u8]) -> (Option<Box2>, &[u8])
    ensures { ForSome (point_from bytes.now)
        (λ x. (result.0 ≡ widened extent x.0) × (result.1.now ≡ x.1)) }
{
    let (point, rest) = point_at(bytes);
    (widen(extent, point), rest)
}

fn by_points(extent: Option<Box2>, bytes: &[u8]) -> (Option<Box2>, &[u8])
    ensures { ForSome (points_from bytes.now)
        (λ x. (result.0 ≡ fold widened extent x.0) × (result.1.now ≡ x.1)) }
{
    let (count, rest) = count_at(POINT_BYTES, bytes);
    by_many_points(extent, count, rest)
}

fn by_many_points(mut extent: Option<Box2>, count: u32, bytes: &[u8]) -> (Option<Box2>, &[u8])
    ensures { ForSome (members_from point_from count bytes.now)
        (λ x. (result.0 ≡ fold widened extent x.0) × (result.1.now ≡ x.1)) }
{
    let mut rest = bytes;
    'members: for _ in 0..count {
        let (wider, after) = by_point(extent, rest);
        extent = wider;
        rest = after;
    }
    (extent, rest)
}

fn by_lines(extent: Option<Box2>, bytes: &[u8]) -> (Option<Box2>, &[u8])
    ensures { ForSome (lines_from bytes.now)
        (λ x. (result.0 ≡ fold widened extent (joined x.0)) × (result.1.now ≡ x.1)) }
{
    let (count, rest) = count_at(LIST_BYTES, bytes);
    by_many_lines(extent, count, rest)
}

fn by_many_lines(mut extent: Option<Box2>, count: u32, bytes: &[u8]) -> (Option<Box2>, &[u8])
    ensures { ForSome (members_from points_from count bytes.now)
        (λ x. (result.0 ≡ fold widened extent (joined x.0)) × (result.1.now ≡ x.1)) }
{
    let mut rest = bytes;
    'members: for _ in 0..count {
        let (wider, after) = by_points(extent, rest);
        extent = wider;
        rest = after;
    }
    (extent, rest)
}

fn by_areas(extent: Option<Box2>, bytes: &[u8]) -> (Option<Box2>, &[u8])
    ensures { ForSome (areas_from bytes.now)
        (λ x. (result.0 ≡ fold widened extent (joined (joined x.0))) × (result.1.now ≡ x.1)) }
{
    let (count, rest) = count_at(LIST_BYTES, bytes);
    by_many_areas(extent, count, rest)
}

fn by_many_areas(mut extent: Option<Box2>, count: u32, bytes: &[u8]) -> (Option<Box2>, &[u8])
    ensures { ForSome (members_from lines_from count bytes.now)
        (λ x. (result.0 ≡ fold widened extent (joined (joined x.0))) × (result.1.now ≡ x.1)) }
{
    let mut rest = bytes;
    'members: for _ in 0..count {
        let (wider, after) = by_lines(extent, rest);
        extent = wider;
        rest = after;
    }
    (extent, rest)
}

/// The least box of all points of a geometry's lists, whose kind is told by a byte, and the bytes
/// behind them.
pub fn span_at(tag: u8, bytes: &[u8]) -> (Option<Box2>, &[u8])
    ensures { ForSome (body_from tag bytes.now)
        (λ x. (result.0 ≡ extent_of (points_of x.0)) × (result.1.now ≡ x.1)) }
{
    match tag {
        POINT_TAG => by_point(None, bytes),
        LINE_TAG => by_points(None, bytes),
        AREA_TAG => by_lines(None, bytes),
        MANY_POINTS_TAG => by_points(None, bytes),
        MANY_LINES_TAG => by_lines(None, bytes),
        MANY_AREAS_TAG => by_areas(None, bytes),
        _ => (None, bytes),
    }
}
