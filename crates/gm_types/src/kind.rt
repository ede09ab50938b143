// Kinds of attributes.
ghost use Rattle.std.specs.Prelude.{◌≡◌};
ghost use Rattle.gm_types.specs.Reader as reading;

use crate::words::is_word;

/// What a geometry attribute holds: geometries of one kind, or of any.
#[derive(Clone, Copy, Debug, PartialEq, Eq)]
pub enum GeoKind {
    Point,
    LineString,
    Polygon,
    MultiPoint,
    MultiLineString,
    MultiPolygon,
    Any,
}

/// What an attribute holds. In specifications a text is a `String`, and a geometry of any kind a
/// `Geometry`.
#[derive(Clone, Copy, Debug, PartialEq, Eq)]
pub enum Kind {
    Text,
    Integer,
    Long,
    Boolean,
    Date,
    Geo(GeoKind),
}

#[tactic(auto, unfolding(crate::specs::Reader::shape_named))]
fn shape_named(text: &[u8]) -> Option<GeoKind>
    ensures { result ≡ reading.shape_named text.now }
{
    if is_word(text, b"Point") {
        return Some(GeoKind::Point);
    }
    if is_word(text, b"LineString") {
        return Some(GeoKind::LineString);
    }
    if is_word(text, b"Polygon") {
        return Some(GeoKind::Polygon);
    }
    if is_word(text, b"MultiPoint") {
        return Some(GeoKind::MultiPoint);
    }
    if is_word(text, b"MultiLineString") {
        return Some(GeoKind::MultiLineString);
    }
    if is_word(text, b"MultiPolygon") {
        return Some(GeoKind::MultiPolygon);
    }
    if is_word(text, b"Geometry") {
        return Some(GeoKind::Any);
    }
    None
}

/// The kind with a name.
#[tactic(auto, unfolding(crate::specs::Reader::kind_named))]
pub(crate) fn kind_named(text: &[u8]) -> Option<Kind>
    ensures { result ≡ reading.kind_named text.now }
{
    if is_word(text, b"String") {
        return Some(Kind::Text);
    }
    if is_word(text, b"Integer") {
        return Some(Kind::Integer);
    }
    if is_word(text, b"Long") {
        return Some(Kind::Long);
    }
    if is_word(text, b"Boolean") {
        return Some(Kind::Boolean);
    }
    if is_word(text, b"Date") {
        return Some(Kind::Date);
    }
    let shape = shape_named(text)?;
    Some(Kind::Geo(shape))
}
