// The boxes of a filter.
ghost use Rattle.std.specs.Prelude.{◌≡◌, IfOk, None, map};
ghost use Rattle.gm_geom.specs.Validity.{fault_of};
ghost use Rattle.gm_types.specs.Index.{is_point_shape};
ghost use Rattle.gm_types.specs.Specification.{default_shape_of};
ghost use Rattle.gm_filter.specs.Suitability.{Suits};
ghost use Rattle.gm_filter.specs.Tree.{tree, trees_of};
ghost use Rattle.gm_bounds.specs.Bound.{bound_of, all_of, any_of, on};
ghost use Rattle.gm_bounds.specs.Lists.{single, nowhere, anywhere};
ghost use Rattle.gm_bounds.specs.Space.{boxes_of, box_of, box_rules};
ghost use Rattle.gm_bounds.specs.ClosedBox as spec;
ghost use Rattle.gm_bounds.specs.Kept.{HasKept, AllHaveKept};

use crate::lists::{counted, join, meet, single};
use crate::{Bound, Boxes};
use gm_base::{Items, NoMemory};
use gm_filter::Filter;
use gm_geom::{Box2, Geometry, bounds};
use gm_types::{FeatureType, GeoKind, Kind};
use std::alloc::Global;

/// Where the default geometry of a feature is of which the filter is true: a point in one of the
/// boxes, while the extent of any other geometry overlaps one of them. The recursion is as deep as
/// the filter.
pub fn boxes(alloc: Global, of: &FeatureType, filter: &Filter) -> Result<Boxes, NoMemory>
    requires { Suits of.now (tree filter.now) }
    ensures { IfOk result (λ boxes. boxes ≡ boxes_of of.now (tree filter.now)) }
{
    match of.default_geometry() {
        None => Ok(Bound::World),
        Some(at) => boxes_in(alloc, filter, at, holds_points(of)),
    }
}

// Whether the default geometry is a Point.
fn holds_points(of: &FeatureType) -> bool
    ensures { result ≡ is_point_shape (default_shape_of of.now) }
{
    match of.default_geometry() {
        None => false,
        Some(at) => match of.attributes().as_slice().get(at as usize) {
            Some(attribute) => matches!(attribute.kind, Kind::Geo(GeoKind::Point)),
            None => false,
        },
    }
}

#[cycle(boxing)]
fn boxes_in(alloc: Global, filter: &Filter, at: u16, points: bool) -> Result<Boxes, NoMemory>
    requires { HasKept (tree filter.now) }
    ensures { IfOk result (λ boxes. boxes ≡ bound_of (box_rules at points) (tree filter.now)) }
{
    match filter {
        Filter::Exclude => Ok(Bound::Listed(Items::new(alloc))),
        Filter::And(members) => boxes_in_all(alloc, members, at, points),
        Filter::Or(members) => counted(alloc, boxes_in_any(alloc, members, at, points)?),
        Filter::Bbox(tested, area) => box_on(alloc, *tested, at, *area),
        Filter::Intersects(tested, geometry) => extent_on(alloc, *tested, at, geometry),
        Filter::Within(tested, area) => extent_on(alloc, *tested, at, area),
        _ => Ok(Bound::World),
    }
}

#[cycle(boxing)]
fn boxes_in_all(alloc: Global, filters: &[Filter], at: u16, points: bool) -> Result<Boxes, NoMemory>
    requires { AllHaveKept (trees_of (map tree filters.now)) }
    ensures { IfOk result (λ boxes. boxes
        ≡ all_of (box_rules at points) anywhere (trees_of (map tree filters.now))) }
{
    let mut found = Bound::World;
    'members: for filter in filters {
        let next = boxes_in(alloc, filter, at, points)?;
        found = meet(alloc, found, next, points)?;
    }
    Ok(found)
}

#[cycle(boxing)]
fn boxes_in_any(alloc: Global, filters: &[Filter], at: u16, points: bool) -> Result<Boxes, NoMemory>
    requires { AllHaveKept (trees_of (map tree filters.now)) }
    ensures { IfOk result (λ boxes. boxes
        ≡ any_of (box_rules at points) nowhere (trees_of (map tree filters.now))) }
{
    let mut found = Bound::Listed(Items::new(alloc));
    'members: for filter in filters {
        let next = boxes_in(alloc, filter, at, points)?;
        found = join(found, next)?;
    }
    Ok(found)
}

// The box of a test of an attribute, where another is asked for.
fn box_on(alloc: Global, tested: u16, at: u16, area: Box2) -> Result<Boxes, NoMemory>
    ensures { IfOk result (λ boxes. boxes ≡ on tested at (single spec.is_void area)) }
{
    if tested == at {
        single(alloc, area)
    } else {
        Ok(Bound::World)
    }
}

fn extent_on(alloc: Global, tested: u16, at: u16, geometry: &Geometry) -> Result<Boxes, NoMemory>
    requires { fault_of geometry.now ≡ None }
    ensures { IfOk result (λ boxes. boxes ≡ on tested at (box_of geometry.now)) }
{
    if tested == at {
        single(alloc, bounds(geometry))
    } else {
        Ok(Bound::World)
    }
}
