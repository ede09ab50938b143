// The bytes of features, read in place.
ghost use Rattle.std.specs.Prelude.{◌≡◌, ◌++◌, ℕ, List, length, Some, None};
ghost use Rattle.std.specs.Prelude.{false, IfNone, IfOk, IfSome, IsTrue, ◌↔◌};
ghost use Rattle.std.specs.Option.{ForSome};
ghost use Rattle.gm_geom.specs.declared.geometry.Geometry.{Geometry as AnyGeometry};
ghost use Rattle.gm_geom.specs.Extent.{extent_of};
ghost use Rattle.gm_geom.specs.Geometry.{points_of};
ghost use Rattle.gm_geom.specs.Validity.{fault_of};
ghost use Rattle.gm_types.specs.declared.kind.GeoKind.{GeoKind as AnyKind};
ghost use Rattle.gm_types.specs.declared.kind.Kind.{Kind as AnyValueKind};
ghost use Rattle.gm_feature.specs.declared.feature.Feature.{Feature};
ghost use Rattle.gm_feature.specs.declared.value.Value.TheVariants as value;
ghost use Rattle.gm_feature.specs.Feature.{value_at};
ghost use Rattle.gm_feature.specs.Reader.{identifier_from, geometry_from, text_from, truth_from};
ghost use Rattle.gm_feature.specs.Reader.{instant_from, content_from, value_from};
ghost use Rattle.gm_feature.specs.Writer.{geometry_bytes};
ghost use Rattle.gm_feature.specs.Stored.{IsStored, AreStored, Says, is_point};

use crate::cursor::StoredValues;
use crate::fronts::{integer_at, long_at, point_at, short_string_at, string_at};
use crate::halt::Halt;
use crate::lists::geometry_of;
use crate::shape::POINT_TAG;
use crate::skips::skip_values;
use crate::spans::span_at;
use gm_base::NoMemory;
use gm_calendar::Instant;
use gm_geom::{Box2, Geometry, Point, extents_are_least};
use gm_types::{FeatureType, GeoKind, Kind};
use std::alloc::Global;

/// The bytes of a feature that fits a type. Of other bytes nothing is said.
#[derive(Clone, Copy, Debug)]
pub struct Stored<'a> {
    pub of: &'a FeatureType,
    pub bytes: &'a [u8],
}

/// The bytes of a geometry, and the least box of all its points.
#[derive(Clone, Copy, Debug)]
pub struct StoredGeometry<'a> {
    pub bytes: &'a [u8],
    pub bounds: Box2,
}

/// The value of an attribute.
#[derive(Clone, Copy, Debug)]
pub enum StoredValue<'a> {
    Null,

    /// The bytes of a text, which are UTF-8.
    Text(&'a [u8]),

    Integer(i32),

    Long(i64),

    Boolean(bool),

    Date(Instant),

    Point(Point),

    /// Any other geometry.
    Geometry(StoredGeometry<'a>),
}

impl<'a> Stored<'a> {
    /// The bytes of the identifier.
    pub fn id(&self) -> &'a [u8]
        ensures { (f : Feature) → IsStored self.now f → result.now ≡ f.id }
    {
        let bytes: &'a [u8] = self.bytes;
        short_string_at(bytes).0
    }

    /// The value of the attribute with that number, from 0, and null where there is none. It takes
    /// no memory, and the time of the values before it, whose points it doesn't read.
    pub fn value(&self, attribute: u16) -> StoredValue<'a>
        ensures { (f : Feature) → IsStored self.now f → Says result (value_at f attribute) }
    {
        let attributes = self.of.attributes().as_slice();
        let number = attribute as usize;
        if attributes.len() <= number {
            return StoredValue::Null;
        }
        let (before, _) = attributes.split_at(number);
        stored_value(
            attributes[number].kind,
            skip_values(before, values_of(self.bytes)),
        )
    }

    /// Whether the value of the attribute with that number, from 0, is null. It takes no memory,
    /// and the time of the values before it: the value itself is not read.
    pub fn is_null(&self, attribute: u16) -> bool
        ensures { (f : Feature) → IsStored self.now f
            → IsTrue result ↔ (value_at f attribute ≡ value.Null) }
    {
        let attributes = self.of.attributes().as_slice();
        let number = attribute as usize;
        if attributes.len() <= number {
            return true;
        }
        let (before, _) = attributes.split_at(number);
        begins_with_null(skip_values(before, values_of(self.bytes)))
    }

    /// All values, in the order of the attributes.
    pub fn values(&self) -> StoredValues<'a>
        ensures { (f : Feature) → IsStored self.now f → AreStored result f.values }
    {
        let of = self.of;
        let bytes: &'a [u8] = self.bytes;
        StoredValues {
            attributes: of.attributes().as_slice(),
            bytes: values_of(bytes),
        }
    }
}

// The bytes behind the identifier.
fn values_of(bytes: &[u8]) -> &[u8]
    ensures { ForSome (identifier_from bytes.now) (λ x. result.now ≡ x.1) }
{
    short_string_at(bytes).1
}

// Whether the first byte tells of null.
fn begins_with_null(bytes: &[u8]) -> bool
    ensures { (kind : AnyValueKind) → ForSome (value_from kind bytes.now)
        (λ x. IsTrue result ↔ (x.0 ≡ value.Null)) }
{
    match bytes {
        [] => true,
        [presence, ..] => *presence == 0,
    }
}

/// The value of that kind at the front of the bytes.
pub fn stored_value(kind: Kind, bytes: &[u8]) -> StoredValue<'_>
    ensures { ForSome (value_from kind bytes.now) (λ x. Says result x.0) }
{
    match bytes {
        [] => StoredValue::Null,
        [presence, rest @ ..] => {
            if *presence == 0 {
                return StoredValue::Null;
            }
            stored_content(kind, rest)
        }
    }
}

fn stored_content(kind: Kind, bytes: &[u8]) -> StoredValue<'_>
    ensures { ForSome (content_from kind bytes.now) (λ x. Says result x.0) }
{
    match kind {
        Kind::Text => StoredValue::Text(text_at(bytes)),
        Kind::Integer => StoredValue::Integer(integer_at(bytes).0),
        Kind::Long => StoredValue::Long(long_at(bytes)),
        Kind::Boolean => StoredValue::Boolean(truth_at(bytes)),
        Kind::Date => stored_date(bytes),
        Kind::Geo(_) => stored_geometry(bytes),
    }
}

fn text_at(bytes: &[u8]) -> &[u8]
    ensures { ForSome (text_from bytes.now) (λ x. result.now ≡ x.0) }
{
    string_at(bytes).0
}

#[tactic(auto, unfolding(crate::specs::Reader::truth_from))]
fn truth_at(bytes: &[u8]) -> bool
    ensures { ForSome (truth_from bytes.now) (λ x. result ≡ x.0) }
{
    matches!(bytes, [1, ..])
}

fn stored_date(bytes: &[u8]) -> StoredValue<'_>
    ensures { ForSome (instant_from bytes.now) (λ x. Says result (value.Date x.0)) }
{
    match Instant::of(long_at(bytes)) {
        Some(at) => StoredValue::Date(at),
        None => StoredValue::Null,
    }
}

fn stored_geometry(bytes: &[u8]) -> StoredValue<'_>
    ensures { (shape : AnyKind) → ForSome (geometry_from shape bytes.now)
        (λ x. Says result (value.Geo x.0)) }
{
    match bytes {
        [] => StoredValue::Null,
        [tag, rest @ ..] => {
            if *tag == POINT_TAG {
                return StoredValue::Point(point_at(rest).0);
            }
            let (extent, after) = span_at(*tag, rest);
            stored_lists(bytes, extent, after.len())
        }
    }
}

// A geometry that is no point, before so many other bytes.
fn stored_lists(bytes: &[u8], extent: Option<Box2>, behind: usize) -> StoredValue<'_>
    ensures { (g : AnyGeometry) (rest : List ℕ) → bytes.now ≡ geometry_bytes g ++ rest
        → behind ≡ length rest → fault_of g ≡ None → is_point g ≡ false
        → extent ≡ extent_of (points_of g) → Says result (value.Geo g) }
{
    extents_are_least();
    match extent {
        None => StoredValue::Null,
        Some(bounds) => {
            let bytes = front_of(bytes, behind);
            StoredValue::Geometry(StoredGeometry { bytes, bounds })
        }
    }
}

// The bytes without so many at the end.
fn front_of(bytes: &[u8], count: usize) -> &[u8]
    ensures { (front rest : List ℕ) → bytes.now ≡ front ++ rest → count ≡ length rest
        → result.now ≡ front }
{
    if bytes.len() < count {
        return bytes;
    }
    let (front, _) = bytes.split_at(bytes.len() - count);
    front
}

impl<'a> StoredGeometry<'a> {
    /// The geometry, and nothing where no geometry that is kept has these bytes.
    pub fn decode(&self, alloc: Global) -> Result<Option<Geometry>, NoMemory>
        ensures found { IfOk result (λ o. IfSome o (λ g.
            (fault_of g ≡ None) × (self.now.bytes.now ≡ geometry_bytes g))) }
        ensures only { (g : AnyGeometry) → fault_of g ≡ None → self.now.bytes.now ≡ geometry_bytes g
            → IfOk result (λ o. o ≡ Some g) }
        ensures none { IfOk result (λ o. IfNone o ((g : AnyGeometry) → fault_of g ≡ None
            → ¬ (self.now.bytes.now ≡ geometry_bytes g))) }
    {
        whole_geometry(alloc, self.bytes)
    }
}

fn whole_geometry(alloc: Global, bytes: &[u8]) -> Result<Option<Geometry>, NoMemory>
    ensures found { IfOk result (λ o. IfSome o (λ g.
        (fault_of g ≡ None) × (bytes.now ≡ geometry_bytes g))) }
    ensures only { (g : AnyGeometry) → fault_of g ≡ None → bytes.now ≡ geometry_bytes g
        → IfOk result (λ o. o ≡ Some g) }
    ensures none { IfOk result (λ o. IfNone o ((g : AnyGeometry) → fault_of g ≡ None
        → ¬ (bytes.now ≡ geometry_bytes g))) }
{
    match geometry_of(alloc, GeoKind::Any, bytes) {
        Err(Halt::Refused) => Ok(None),
        Err(Halt::NoMemory) => Err(NoMemory),
        Ok((geometry, rest)) => {
            if rest.is_empty() {
                return Ok(Some(geometry));
            }
            Ok(None)
        }
    }
}
