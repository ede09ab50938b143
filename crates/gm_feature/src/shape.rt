// Geometries copied, and told by their kind.
ghost use Rattle.std.specs.Prelude.{◌≡◌, IfOk};
ghost use Rattle.gm_feature.specs.Shape as spec;

use gm_base::{Items, NoMemory};
use gm_geom::{Areas, Geometry, Lines, Points};
use gm_types::GeoKind;
use std::alloc::Global;

/// The bytes that tell the kind of a geometry.
pub const POINT_TAG: u8 = 1;

pub const LINE_TAG: u8 = 2;

pub const AREA_TAG: u8 = 3;

pub const MANY_POINTS_TAG: u8 = 4;

pub const MANY_LINES_TAG: u8 = 5;

pub const MANY_AREAS_TAG: u8 = 6;

/// Whether an attribute of the kind may hold the geometry.
pub fn has_shape(shape: GeoKind, geometry: &Geometry) -> bool
    ensures { result ≡ spec.has_shape shape geometry.now }
{
    match geometry {
        Geometry::Point(_) => matches!(shape, GeoKind::Any | GeoKind::Point),
        Geometry::Line(_) => matches!(shape, GeoKind::Any | GeoKind::LineString),
        Geometry::Area(_) => matches!(shape, GeoKind::Any | GeoKind::Polygon),
        Geometry::ManyPoints(_) => matches!(shape, GeoKind::Any | GeoKind::MultiPoint),
        Geometry::ManyLines(_) => matches!(shape, GeoKind::Any | GeoKind::MultiLineString),
        Geometry::ManyAreas(_) => matches!(shape, GeoKind::Any | GeoKind::MultiPolygon),
    }
}

/// The geometry again, whole or not at all.
pub fn copy_geometry(alloc: Global, geometry: &Geometry) -> Result<Geometry, NoMemory>
    ensures { IfOk result (λ copy. copy ≡ geometry.now) }
{
    match geometry {
        Geometry::Point(point) => Ok(Geometry::Point(*point)),
        Geometry::Line(points) => Ok(Geometry::Line(copy_points(alloc, points)?)),
        Geometry::Area(rings) => Ok(Geometry::Area(copy_lines(alloc, rings)?)),
        Geometry::ManyPoints(points) => Ok(Geometry::ManyPoints(copy_points(alloc, points)?)),
        Geometry::ManyLines(lines) => Ok(Geometry::ManyLines(copy_lines(alloc, lines)?)),
        Geometry::ManyAreas(areas) => Ok(Geometry::ManyAreas(copy_areas(alloc, areas)?)),
    }
}

fn copy_points(alloc: Global, points: &Points) -> Result<Points, NoMemory>
    ensures { IfOk result (λ copy. copy ≡ points.now) }
{
    Items::from_slice(alloc, points.as_slice())
}

fn copy_lines(alloc: Global, lines: &Lines) -> Result<Lines, NoMemory>
    ensures { IfOk result (λ copy. copy ≡ lines.now) }
{
    let mut copies = Vec::with_capacity(alloc, lines.len())?;
    'lines: for line in lines.as_slice() {
        copies.push(copy_points(alloc, line)?)?;
    }
    Ok(Items::from_vec(copies))
}

fn copy_areas(alloc: Global, areas: &Areas) -> Result<Areas, NoMemory>
    ensures { IfOk result (λ copy. copy ≡ areas.now) }
{
    let mut copies = Vec::with_capacity(alloc, areas.len())?;
    'areas: for rings in areas.as_slice() {
        copies.push(copy_lines(alloc, rings)?)?;
    }
    Ok(Items::from_vec(copies))
}
