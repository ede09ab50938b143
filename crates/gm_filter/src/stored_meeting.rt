// What a geometry meets that is read in place. One that is no point is decoded, and only where its
// bounds overlap those of what it is to meet.
ghost use Rattle.std.specs.Prelude.{◌≡◌, None, IfOk};
ghost use Rattle.gm_geom.specs.declared.geometry.Geometry.{Geometry as AnyGeometry};
ghost use Rattle.gm_geom.specs.declared.geometry.Geometry.TheVariants as geo;
ghost use Rattle.gm_geom.specs.Validity.{fault_of};
ghost use Rattle.gm_shapes.specs.Meeting.{do_intersect, box_area};
ghost use Rattle.gm_feature.specs.declared.feature.Feature.{Feature};
ghost use Rattle.gm_feature.specs.Feature.{value_at};
ghost use Rattle.gm_feature.specs.Stored.{IsStored, IsStoredGeometry};
ghost use Rattle.gm_filter.specs.Trial.{HasFeature, IsRisingBox};
ghost use Rattle.gm_filter.specs.Truth as spec;

use gm_base::NoMemory;
use gm_feature::{Stored, StoredGeometry, StoredValue};
use gm_geom::{Box2, Geometry, Point, bounds};
use gm_shapes::{
    do_overlap, intersects, is_in_box, meets_box, meets_where_in_box, overlaps_a_box_it_meets,
    overlaps_where_meeting, within,
};
use std::alloc::Global;

pub(crate) fn meets_area_at(
    alloc: Global,
    stored: &Stored<'_>,
    at: u16,
    area: Box2,
) -> Result<bool, NoMemory>
    requires { IsRisingBox area }
    ensures { (f : Feature) → IsStored stored.now f
        → IfOk result (λ b. b ≡ spec.meets (value_at f at) (box_area area)) }
{
    match stored.value(at) {
        StoredValue::Point(point) => Ok(is_point_in(point, area)),
        StoredValue::Geometry(geometry) => reaches_area(alloc, &geometry, area),
        _ => Ok(false),
    }
}

fn is_point_in(point: Point, area: Box2) -> bool
    requires { IsRisingBox area }
    ensures { result ≡ do_intersect (geo.Point point) (box_area area) }
{
    meets_where_in_box();
    is_in_box(point, area)
}

fn reaches_area(alloc: Global, geometry: &StoredGeometry<'_>, area: Box2) -> Result<bool, NoMemory>
    requires { IsRisingBox area }
    ensures { (g : AnyGeometry) → IsStoredGeometry geometry.now g
        → IfOk result (λ b. b ≡ do_intersect g (box_area area)) }
{
    overlaps_a_box_it_meets();
    if !do_overlap(geometry.bounds, area) {
        return Ok(false);
    }
    match geometry.decode(alloc)? {
        Some(decoded) => Ok(meets_box(&decoded, area)),
        None => Ok(false),
    }
}

pub(crate) fn meets_at(
    alloc: Global,
    stored: &Stored<'_>,
    at: u16,
    other: &Geometry,
) -> Result<bool, NoMemory>
    requires stored { HasFeature stored.now }
    requires kept { fault_of other.now ≡ None }
    ensures { (f : Feature) → IsStored stored.now f
        → IfOk result (λ b. b ≡ spec.meets (value_at f at) other.now) }
{
    match stored.value(at) {
        StoredValue::Point(point) => Ok(intersects(&Geometry::Point(point), other)),
        StoredValue::Geometry(geometry) => reaches(alloc, &geometry, other),
        _ => Ok(false),
    }
}

pub(crate) fn is_apart_at(
    alloc: Global,
    stored: &Stored<'_>,
    at: u16,
    other: &Geometry,
) -> Result<bool, NoMemory>
    requires stored { HasFeature stored.now }
    requires kept { fault_of other.now ≡ None }
    ensures { (f : Feature) → IsStored stored.now f
        → IfOk result (λ b. b ≡ spec.is_apart (value_at f at) other.now) }
{
    match stored.value(at) {
        StoredValue::Point(point) => Ok(!intersects(&Geometry::Point(point), other)),
        StoredValue::Geometry(geometry) => Ok(!reaches(alloc, &geometry, other)?),
        _ => Ok(false),
    }
}

fn reaches(alloc: Global, geometry: &StoredGeometry<'_>, other: &Geometry) -> Result<bool, NoMemory>
    requires { fault_of other.now ≡ None }
    ensures { (g : AnyGeometry) → IsStoredGeometry geometry.now g
        → IfOk result (λ b. b ≡ do_intersect g other.now) }
{
    overlaps_where_meeting();
    if !do_overlap(geometry.bounds, bounds(other)) {
        return Ok(false);
    }
    match geometry.decode(alloc)? {
        Some(decoded) => Ok(intersects(&decoded, other)),
        None => Ok(false),
    }
}

pub(crate) fn is_within_at(stored: &Stored<'_>, at: u16, area: &Geometry) -> bool
    ensures { (f : Feature) → IsStored stored.now f
        → result ≡ spec.is_within (value_at f at) area.now }
{
    match stored.value(at) {
        StoredValue::Point(point) => within(point, area),
        _ => false,
    }
}
