// Where a feature stands in space and time.
ghost use Rattle.std.specs.Prelude.{◌≡◌, ◌<◌, true, Some, None, IfSome};
ghost use Rattle.std.specs.Option.{option_copied};
ghost use Rattle.gm_calendar.specs.Period.{longest_of};
ghost use Rattle.gm_geom.specs.Validity.{fault_of, is_in_world};
ghost use Rattle.gm_types.specs.Specification.{period_of};
ghost use Rattle.gm_feature.specs.Feature.{Fits};
ghost use Rattle.gm_keys.specs.Cell.{IsBoxInWorld};
ghost use Rattle.gm_keys.specs.Whereabouts as spec;

use gm_calendar::{Bin, Instant, bin_of};
use gm_feature::{Feature, Value};
use gm_geom::{Box2, Geometry, Point, bounds};
use gm_types::FeatureType;

// The default geometry of a feature, where it has one.
fn geometry_in<'a>(of: &FeatureType, feature: &'a Feature) -> Option<&'a Geometry>
    requires { Fits of.now feature.now }
    ensures value { option_copied result ≡ spec.geometry_in of.now feature.now }
    ensures kept { IfSome result (λ geometry. fault_of geometry.now ≡ None) }
{
    let attribute = of.default_geometry()?;
    match feature.values.as_slice().get(usize::from(attribute)) {
        Some(Value::Geo(geometry)) => Some(geometry),
        _ => None,
    }
}

// The default date of a feature, where it has one.
fn instant_in(of: &FeatureType, feature: &Feature) -> Option<Instant>
    ensures { result ≡ spec.instant_in of.now feature.now }
{
    let attribute = of.default_date()?;
    match feature.values.as_slice().get(usize::from(attribute)) {
        Some(Value::Date(at)) => Some(*at),
        _ => None,
    }
}

/// The point of a feature whose default geometry is a point.
pub(crate) fn point_in(of: &FeatureType, feature: &Feature) -> Option<Point>
    requires { Fits of.now feature.now }
    ensures value { result ≡ spec.point_in of.now feature.now }
    ensures in_world { IfSome result (λ point. is_in_world point ≡ true) }
{
    match geometry_in(of, feature) {
        Some(Geometry::Point(point)) => Some(*point),
        _ => None,
    }
}

/// The box of the default geometry of a feature.
pub(crate) fn box_in(of: &FeatureType, feature: &Feature) -> Option<Box2>
    requires { Fits of.now feature.now }
    ensures value { result ≡ spec.box_in of.now feature.now }
    ensures in_world { IfSome result IsBoxInWorld }
{
    match geometry_in(of, feature) {
        Some(geometry) => Some(extent(geometry)),
        None => None,
    }
}

// The box of a geometry, by what it means for cells.
fn extent(geometry: &Geometry) -> Box2
    requires { fault_of geometry.now ≡ None }
    ensures value { spec.box_of geometry.now ≡ Some result }
    ensures in_world { IsBoxInWorld result }
{
    bounds(geometry)
}

/// The bin of the default date of a feature.
pub(crate) fn bin_in(of: &FeatureType, feature: &Feature) -> Option<Bin>
    ensures value { result ≡ spec.bin_in of.now feature.now }
    ensures offset { IfSome result (λ bin. bin.offset < longest_of (period_of of.now)) }
{
    match instant_in(of, feature) {
        Some(at) => bin_of(of.period(), at),
        None => None,
    }
}
