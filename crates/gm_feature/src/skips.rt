// The bytes behind a value, which is not read. Of bytes that spell no such value nothing is said.
ghost use Rattle.std.specs.Prelude.{◌≡◌, ◌≤◌, length, drop, map};
ghost use Rattle.std.specs.Option.{ForSome};
ghost use Rattle.gm_types.specs.declared.kind.GeoKind.{GeoKind as AnyKind};
ghost use Rattle.gm_feature.specs.Reader.{members_from, points_from, lines_from, areas_from};
ghost use Rattle.gm_feature.specs.Reader.{body_from, geometry_from, text_from, content_from};
ghost use Rattle.gm_feature.specs.Reader.{value_from, values_from};

use crate::fronts::{count_at, string_at};
use crate::lists::{LIST_BYTES, POINT_BYTES};
use crate::shape::{
    AREA_TAG, LINE_TAG, MANY_AREAS_TAG, MANY_LINES_TAG, MANY_POINTS_TAG, POINT_TAG,
};
use gm_types::{Attribute, Kind};

fn behind(count: usize, bytes: &[u8]) -> &[u8]
    ensures { count ≤ length bytes.now → result.now ≡ drop count bytes.now }
{
    if bytes.len() < count {
        return bytes;
    }
    let (_, rest) = bytes.split_at(count);
    rest
}

// All points at once.
fn skip_points(bytes: &[u8]) -> &[u8]
    ensures { ForSome (points_from bytes.now) (λ x. result.now ≡ x.1) }
{
    let (count, rest) = count_at(POINT_BYTES, bytes);
    behind(count as usize * 8, rest)
}

fn skip_lines(bytes: &[u8]) -> &[u8]
    ensures { ForSome (lines_from bytes.now) (λ x. result.now ≡ x.1) }
{
    let (count, rest) = count_at(LIST_BYTES, bytes);
    skip_many_lines(count, rest)
}

fn skip_many_lines(count: u32, bytes: &[u8]) -> &[u8]
    ensures { ForSome (members_from points_from count bytes.now) (λ x. result.now ≡ x.1) }
{
    let mut rest = bytes;
    'members: for _ in 0..count {
        rest = skip_points(rest);
    }
    rest
}

fn skip_areas(bytes: &[u8]) -> &[u8]
    ensures { ForSome (areas_from bytes.now) (λ x. result.now ≡ x.1) }
{
    let (count, rest) = count_at(LIST_BYTES, bytes);
    skip_many_areas(count, rest)
}

fn skip_many_areas(count: u32, bytes: &[u8]) -> &[u8]
    ensures { ForSome (members_from lines_from count bytes.now) (λ x. result.now ≡ x.1) }
{
    let mut rest = bytes;
    'members: for _ in 0..count {
        rest = skip_lines(rest);
    }
    rest
}

fn skip_body(tag: u8, bytes: &[u8]) -> &[u8]
    ensures { ForSome (body_from tag bytes.now) (λ x. result.now ≡ x.1) }
{
    match tag {
        POINT_TAG => behind(8, bytes),
        LINE_TAG => skip_points(bytes),
        AREA_TAG => skip_lines(bytes),
        MANY_POINTS_TAG => skip_points(bytes),
        MANY_LINES_TAG => skip_lines(bytes),
        MANY_AREAS_TAG => skip_areas(bytes),
        _ => bytes,
    }
}

fn skip_geometry(bytes: &[u8]) -> &[u8]
    ensures { (shape : AnyKind) → ForSome (geometry_from shape bytes.now) (λ x. result.now ≡ x.1) }
{
    match bytes {
        [] => bytes,
        [tag, rest @ ..] => skip_body(*tag, rest),
    }
}

fn skip_text(bytes: &[u8]) -> &[u8]
    ensures { ForSome (text_from bytes.now) (λ x. result.now ≡ x.1) }
{
    string_at(bytes).1
}

fn skip_content(kind: Kind, bytes: &[u8]) -> &[u8]
    ensures { ForSome (content_from kind bytes.now) (λ x. result.now ≡ x.1) }
{
    match kind {
        Kind::Text => skip_text(bytes),
        Kind::Integer => behind(4, bytes),
        Kind::Long => behind(8, bytes),
        Kind::Boolean => behind(1, bytes),
        Kind::Date => behind(8, bytes),
        Kind::Geo(_) => skip_geometry(bytes),
    }
}

/// The bytes behind a value. Null is its one byte.
pub fn skip_value(kind: Kind, bytes: &[u8]) -> &[u8]
    ensures { ForSome (value_from kind bytes.now) (λ x. result.now ≡ x.1) }
{
    match bytes {
        [] => bytes,
        [presence, rest @ ..] => {
            if *presence == 0 {
                return rest;
            }
            skip_content(kind, rest)
        }
    }
}

/// The bytes behind a value for each of the attributes.
pub fn skip_values<'a>(attributes: &[Attribute], bytes: &'a [u8]) -> &'a [u8]
    ensures { ForSome (values_from (map (λ attribute. attribute.kind) attributes.now) bytes.now)
        (λ x. result.now ≡ x.1) }
{
    let mut rest = bytes;
    'values: for attribute in attributes {
        rest = skip_value(attribute.kind, rest);
    }
    rest
}
