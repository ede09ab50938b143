// Features to bytes.
ghost use Rattle.std.specs.Prelude.{◌≡◌, ◌<◌, ◌^◌, ◌++◌, ◌∷◌, [], None, length, true, IfOk, OnOk};
ghost use Rattle.std.specs.Int.{w32, w64, to_be_bytes};
ghost use Rattle.gm_geom.specs.Validity.{fault_of};
ghost use Rattle.gm_feature.specs.Feature.{Fits};
ghost use Rattle.gm_feature.specs.Writer as spec;
ghost use Rattle.gm_feature.specs.Value.{is_sound};

use crate::shape::{
    AREA_TAG, LINE_TAG, MANY_AREAS_TAG, MANY_LINES_TAG, MANY_POINTS_TAG, POINT_TAG,
};
use crate::{Feature, Value};
use byteorder::{BigEndian, ByteOrder};
use gm_base::{Bytes, NoMemory};
use gm_geom::{Areas, Geometry, Lines, Point, Points};
use gm_types::FeatureType;
use std::alloc::Global;

/// The room that is made for a value at first.
const VALUE_ROOM: usize = 16;

/// The bytes of a feature that fits. docs/LANGUAGE.md lays them out.
pub fn to_bytes(alloc: Global, of: &FeatureType, feature: &Feature) -> Result<Bytes, NoMemory>
    requires { Fits of.now feature.now }
    ensures { IfOk result (λ bytes. bytes ≡ spec.feature_bytes feature.now) }
{
    let id = feature.id.as_bytes();
    let mut length = [0u8; 2];
    BigEndian::write_u16(&mut length, id.len() as u16);
    let room = VALUE_ROOM * of.attributes().len();
    let mut bytes = Vec::with_capacity(alloc, room + id.len() + length.len())?;
    bytes.extend_from_slice(&length)?;
    bytes.extend_from_slice(id)?;
    'values: for value in feature.values.as_slice() {
        put_value(&mut bytes, value)?;
    }
    Ok(Bytes::from_vec(bytes))
}

fn put_value(bytes: &mut Vec<u8>, value: &Value) -> Result<(), NoMemory>
    requires { is_sound value.now ≡ true }
    ensures { OnOk result (bytes.new.items ≡ bytes.old.items ++ spec.value_bytes value.now) }
{
    bytes.push(presence_byte(value))?;
    put_content(bytes, value)
}

fn presence_byte(value: &Value) -> u8
    ensures { result ≡ spec.presence_byte value.now }
{
    match value {
        Value::Null => 0,
        Value::Text(_)
        | Value::Integer(_)
        | Value::Long(_)
        | Value::Boolean(_)
        | Value::Date(_)
        | Value::Geo(_) => 1,
    }
}

fn put_content(bytes: &mut Vec<u8>, value: &Value) -> Result<(), NoMemory>
    requires { is_sound value.now ≡ true }
    ensures { OnOk result (bytes.new.items ≡ bytes.old.items ++ spec.content_bytes value.now) }
{
    match value {
        Value::Null => Ok(()),
        Value::Text(text) => put_text(bytes, text.as_bytes()),
        Value::Integer(number) => put_integer(bytes, *number),
        Value::Long(number) => put_long(bytes, *number),
        Value::Boolean(truth) => put_truth(bytes, *truth),
        Value::Date(at) => put_long(bytes, at.ms()),
        Value::Geo(geometry) => put_geometry(bytes, geometry),
    }
}

fn put_truth(bytes: &mut Vec<u8>, truth: bool) -> Result<(), NoMemory>
    ensures { OnOk result (bytes.new.items ≡ bytes.old.items ++ spec.truth_byte truth ∷ []) }
{
    bytes.push(truth_byte(truth))?;
    Ok(())
}

fn truth_byte(truth: bool) -> u8
    ensures { result ≡ spec.truth_byte truth }
{
    if truth { 1 } else { 0 }
}

fn put_count(bytes: &mut Vec<u8>, count: usize) -> Result<(), NoMemory>
    requires { count < 2 ^ 32 }
    ensures { OnOk result (bytes.new.items ≡ bytes.old.items ++ to_be_bytes w32 count) }
{
    let mut four = [0u8; 4];
    BigEndian::write_u32(&mut four, count as u32);
    bytes.extend_from_slice(&four)?;
    Ok(())
}

fn put_integer(bytes: &mut Vec<u8>, number: i32) -> Result<(), NoMemory>
    ensures { OnOk result (bytes.new.items ≡ bytes.old.items ++ spec.signed_bytes w32 number) }
{
    let mut four = [0u8; 4];
    BigEndian::write_i32(&mut four, number);
    bytes.extend_from_slice(&four)?;
    Ok(())
}

fn put_long(bytes: &mut Vec<u8>, number: i64) -> Result<(), NoMemory>
    ensures { OnOk result (bytes.new.items ≡ bytes.old.items ++ spec.signed_bytes w64 number) }
{
    let mut eight = [0u8; 8];
    BigEndian::write_i64(&mut eight, number);
    bytes.extend_from_slice(&eight)?;
    Ok(())
}

fn put_text(bytes: &mut Vec<u8>, text: &[u8]) -> Result<(), NoMemory>
    requires { length text.now < 2 ^ 32 }
    ensures { OnOk result (bytes.new.items ≡ bytes.old.items ++ spec.string_bytes w32 text.now) }
{
    put_count(bytes, text.len())?;
    bytes.extend_from_slice(text)?;
    Ok(())
}

fn put_geometry(bytes: &mut Vec<u8>, geometry: &Geometry) -> Result<(), NoMemory>
    requires { fault_of geometry.now ≡ None }
    ensures { OnOk result (bytes.new.items ≡ bytes.old.items ++ spec.geometry_bytes geometry.now) }
{
    bytes.push(shape_byte(geometry))?;
    put_body(bytes, geometry)
}

fn shape_byte(geometry: &Geometry) -> u8
    ensures { result ≡ spec.shape_byte geometry.now }
{
    match geometry {
        Geometry::Point(_) => POINT_TAG,
        Geometry::Line(_) => LINE_TAG,
        Geometry::Area(_) => AREA_TAG,
        Geometry::ManyPoints(_) => MANY_POINTS_TAG,
        Geometry::ManyLines(_) => MANY_LINES_TAG,
        Geometry::ManyAreas(_) => MANY_AREAS_TAG,
    }
}

fn put_body(bytes: &mut Vec<u8>, geometry: &Geometry) -> Result<(), NoMemory>
    requires { fault_of geometry.now ≡ None }
    ensures { OnOk result (bytes.new.items ≡ bytes.old.items ++ spec.body_bytes geometry.now) }
{
    match geometry {
        Geometry::Point(point) => put_point(bytes, *point),
        Geometry::Line(points) => put_points(bytes, points),
        Geometry::Area(rings) => put_lines(bytes, rings),
        Geometry::ManyPoints(points) => put_points(bytes, points),
        Geometry::ManyLines(lines) => put_lines(bytes, lines),
        Geometry::ManyAreas(areas) => put_areas(bytes, areas),
    }
}

fn put_point(bytes: &mut Vec<u8>, point: Point) -> Result<(), NoMemory>
    ensures { OnOk result (bytes.new.items ≡ bytes.old.items ++ spec.point_bytes point) }
{
    put_integer(bytes, point.x)?;
    put_integer(bytes, point.y)
}

fn put_points(bytes: &mut Vec<u8>, points: &Points) -> Result<(), NoMemory>
    requires { length points.now < 2 ^ 32 }
    ensures { OnOk result (bytes.new.items ≡ bytes.old.items ++ spec.points_bytes points.now) }
{
    put_count(bytes, points.len())?;
    bytes.reserve(8 * points.len())?;
    'points: for point in points.as_slice() {
        put_point(bytes, *point)?;
    }
    Ok(())
}

fn put_lines(bytes: &mut Vec<u8>, lines: &Lines) -> Result<(), NoMemory>
    requires { spec.AreCountedLines lines.now }
    ensures { OnOk result (bytes.new.items ≡ bytes.old.items ++ spec.lines_bytes lines.now) }
{
    put_count(bytes, lines.len())?;
    'lines: for line in lines.as_slice() {
        put_points(bytes, line)?;
    }
    Ok(())
}

fn put_areas(bytes: &mut Vec<u8>, areas: &Areas) -> Result<(), NoMemory>
    requires { spec.AreCountedAreas areas.now }
    ensures { OnOk result (bytes.new.items ≡ bytes.old.items ++ spec.areas_bytes areas.now) }
{
    put_count(bytes, areas.len())?;
    'areas: for rings in areas.as_slice() {
        put_lines(bytes, rings)?;
    }
    Ok(())
}
