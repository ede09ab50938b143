// Geometries that values are to meet, or to lie within.
ghost use Rattle.std.specs.Prelude.{◌≡◌, true, None, IfOk};
ghost use Rattle.gm_geom.specs.declared.geometry.Geometry.{Geometry as AnyGeometry};
ghost use Rattle.gm_geom.specs.declared.geometry.Geometry.TheVariants as geo;
ghost use Rattle.gm_geom.specs.declared.point.Box2.{Box2};
ghost use Rattle.gm_geom.specs.Extent.{HoldsAll};
ghost use Rattle.gm_geom.specs.Geometry.{points_of};
ghost use Rattle.gm_geom.specs.Validity.{fault_of};
ghost use Rattle.gm_shapes.specs.Meeting.{do_intersect};
ghost use Rattle.gm_shapes.specs.Segment as spec;
ghost use Rattle.gm_feature.specs.declared.feature.Feature.{Feature};
ghost use Rattle.gm_feature.specs.Feature.{value_at};
ghost use Rattle.gm_feature.specs.Stored.{IsStored, IsStoredGeometry};
ghost use Rattle.gm_filter.specs.Truth as truth;

use gm_base::NoMemory;
use gm_feature::{Stored, StoredGeometry, StoredValue};
use gm_geom::{Box2, Geometry, Point};
use gm_prepared::Prepared;
use gm_shapes::{do_overlap, meeting_is_symmetric, overlaps_where_meeting};
use std::alloc::Global;

/// A geometry, prepared, and its bounds.
#[derive(Drop)]
pub(crate) struct Target {
    prepared: Prepared,
    bounds: Box2,
    ghost near: { (other : AnyGeometry) (b : Box2) → fault_of other ≡ None →
        HoldsAll b (points_of other) → do_intersect other prepared ≡ true →
        spec.do_overlap b bounds ≡ true },
}

impl Target {
    pub(crate) fn of(alloc: Global, geometry: &Geometry) -> Result<Target, NoMemory>
        requires { fault_of geometry.now ≡ None }
        ensures { IfOk result (λ target. target.prepared ≡ geometry.now) }
    {
        overlaps_where_meeting();
        let prepared = Prepared::of(alloc, geometry)?;
        let extent = prepared.bounds();
        Ok(Target {
            prepared,
            bounds: extent,
        })
    }

    /// Whether the value of an attribute is a geometry that meets this one.
    pub(crate) fn meets_at(
        &self,
        alloc: Global,
        stored: &Stored<'_>,
        at: u16,
    ) -> Result<bool, NoMemory>
        ensures { (f : Feature) → IsStored stored.now f
            → IfOk result (λ b. b ≡ truth.meets (value_at f at) self.now.prepared) }
    {
        match stored.value(at) {
            StoredValue::Point(point) => Ok(self.meets_point(point)),
            StoredValue::Geometry(geometry) => self.meets_stored(alloc, &geometry),
            _ => Ok(false),
        }
    }

    /// Whether it is a geometry that does not.
    pub(crate) fn is_apart_at(
        &self,
        alloc: Global,
        stored: &Stored<'_>,
        at: u16,
    ) -> Result<bool, NoMemory>
        ensures { (f : Feature) → IsStored stored.now f
            → IfOk result (λ b. b ≡ truth.is_apart (value_at f at) self.now.prepared) }
    {
        match stored.value(at) {
            StoredValue::Point(point) => Ok(!self.meets_point(point)),
            StoredValue::Geometry(geometry) => Ok(!self.meets_stored(alloc, &geometry)?),
            _ => Ok(false),
        }
    }

    /// Whether it is a point that lies in one of the polygons and on none of its edges.
    pub(crate) fn has_within_at(&self, stored: &Stored<'_>, at: u16) -> bool
        ensures { (f : Feature) → IsStored stored.now f
            → result ≡ truth.is_within (value_at f at) self.now.prepared }
    {
        match stored.value(at) {
            StoredValue::Point(point) => self.prepared.has_within(point),
            _ => false,
        }
    }

    fn meets_point(&self, point: Point) -> bool
        ensures { result ≡ do_intersect (geo.Point point) self.now.prepared }
    {
        meeting_is_symmetric();
        self.prepared.meets_point(point)
    }

    // A geometry whose bounds lie apart is not decoded.
    fn meets_stored(&self, alloc: Global, stored: &StoredGeometry<'_>) -> Result<bool, NoMemory>
        ensures { (g : AnyGeometry) → IsStoredGeometry stored.now g
            → IfOk result (λ b. b ≡ do_intersect g self.now.prepared) }
    {
        meeting_is_symmetric();
        if !do_overlap(stored.bounds, self.bounds) {
            return Ok(false);
        }
        match stored.decode(alloc)? {
            Some(geometry) => Ok(self.prepared.meets(&geometry)),
            None => Ok(false),
        }
    }
}
