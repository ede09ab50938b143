// The lists of a filter's bounds.
ghost use Rattle.std.specs.Prelude.{◌≡◌, ◌≤◌, length, IfOk};
ghost use Rattle.gm_filter.specs.Suitability.{Suits};
ghost use Rattle.gm_filter.specs.Tree.{tree};
ghost use Rattle.gm_bounds.specs.Space.{boxes_of};
ghost use Rattle.gm_bounds.specs.Values.{byte_ranges_of};
ghost use Rattle.gm_bounds.specs.Time.{intervals_of};
ghost use Rattle.gm_plan.specs.KeyRanges.{list_of};

use gm_base::{Items, NoMemory};
use gm_bounds::{Bound, BoxList, ByteRangeItems, IntervalList, attr_bounds, boxes, intervals};
use gm_filter::Filter;
use gm_types::FeatureType;
use std::alloc::Global;

/// The boxes of a filter, at most eight; none where they are the world.
pub(crate) fn box_list(
    alloc: Global,
    of: &FeatureType,
    filter: &Filter,
) -> Result<BoxList, NoMemory>
    requires { Suits of.now (tree filter.now) }
    ensures value { IfOk result (λ list. list ≡ list_of (boxes_of of.now (tree filter.now))) }
    ensures few { IfOk result (λ list. length list ≤ 8) }
{
    match boxes(alloc, of, filter)? {
        Bound::World => Ok(Items::new(alloc)),
        Bound::Listed(list) => Ok(list),
    }
}

/// The intervals of a filter, at most eight.
pub(crate) fn interval_list(
    alloc: Global,
    of: &FeatureType,
    filter: &Filter,
) -> Result<IntervalList, NoMemory>
    requires { Suits of.now (tree filter.now) }
    ensures value { IfOk result (λ list. list ≡ list_of (intervals_of of.now (tree filter.now))) }
    ensures few { IfOk result (λ list. length list ≤ 8) }
{
    match intervals(alloc, of, filter)? {
        Bound::World => Ok(Items::new(alloc)),
        Bound::Listed(list) => Ok(list),
    }
}

/// The byte ranges of a filter for an attribute.
pub(crate) fn value_list(
    alloc: Global,
    of: &FeatureType,
    attribute: u16,
    filter: &Filter,
) -> Result<ByteRangeItems, NoMemory>
    requires { Suits of.now (tree filter.now) }
    ensures { IfOk result (λ list. list
        ≡ list_of (byte_ranges_of of.now attribute (tree filter.now))) }
{
    match attr_bounds(alloc, of, attribute, filter)? {
        Bound::World => Ok(Items::new(alloc)),
        Bound::Listed(list) => Ok(list),
    }
}
