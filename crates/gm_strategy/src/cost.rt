// What it costs to read an index for a filter.
ghost use Rattle.std.specs.Prelude.{◌≡◌, IfOk, Some, None, slice_get, if◌then◌else◌};
ghost use Rattle.gm_filter.specs.Suitability.{Suits};
ghost use Rattle.gm_filter.specs.Tree.{tree};
ghost use Rattle.gm_types.specs.declared.index.IndexKind.TheVariants.{Id, Attr};
ghost use Rattle.gm_bounds.specs.Applicability.{does_apply};
ghost use Rattle.gm_strategy.specs.Cost as spec;

use gm_base::NoMemory;
use gm_bounds::{Bound, ByteRange, applies, are_of_one_value, attr_bounds, ids};
use gm_filter::Filter;
use gm_types::{FeatureType, IndexKind};
use std::alloc::Global;

// The identifiers are known.
const KNOWN_IDS: u8 = 1;

// Single values of an attribute of high cardinality.
const RARE_VALUES: u8 = 2;

// Boxes in bounded time.
const BOXES_IN_TIME: u8 = 3;

// Single values of another attribute.
const VALUES: u8 = 4;

const BOXES: u8 = 5;

// Ranges of values of an attribute.
const VALUE_RANGES: u8 = 6;

/// Of what has to be read as a whole.
pub(crate) const WHOLE: u8 = 7;

/// The cost of an index, where it applies.
pub(crate) fn cost_of(
    alloc: Global,
    of: &FeatureType,
    kind: IndexKind,
    filter: &Filter,
) -> Result<Option<u8>, NoMemory>
    requires { Suits of.now (tree filter.now) }
    ensures { IfOk result (λ cost. cost ≡ spec.cost_of of.now kind (tree filter.now)) }
{
    match kind {
        IndexKind::Id => Ok(Some(cost_of_ids(alloc, filter)?)),
        IndexKind::Z2 => where_applies(alloc, of, kind, filter, BOXES),
        IndexKind::Z3 => where_applies(alloc, of, kind, filter, BOXES_IN_TIME),
        IndexKind::Xz2 => where_applies(alloc, of, kind, filter, BOXES),
        IndexKind::Xz3 => where_applies(alloc, of, kind, filter, BOXES_IN_TIME),
        IndexKind::Attr(attribute) => cost_of_attribute(alloc, of, attribute, filter),
    }
}

/// The cost of the index of identifiers, which always applies.
pub(crate) fn cost_of_ids(alloc: Global, filter: &Filter) -> Result<u8, NoMemory>
    ensures { IfOk result (λ cost. cost ≡ spec.ids_cost (tree filter.now)) }
{
    match ids(alloc, filter)? {
        Bound::World => Ok(WHOLE),
        Bound::Listed(_) => Ok(KNOWN_IDS),
    }
}

fn where_applies(
    alloc: Global,
    of: &FeatureType,
    kind: IndexKind,
    filter: &Filter,
    cost: u8,
) -> Result<Option<u8>, NoMemory>
    requires { Suits of.now (tree filter.now) }
    ensures { IfOk result (λ known. known
        ≡ (if does_apply of.now kind (tree filter.now) then Some cost else None)) }
{
    if applies(alloc, of, kind, filter)? {
        Ok(Some(cost))
    } else {
        Ok(None)
    }
}

fn cost_of_attribute(
    alloc: Global,
    of: &FeatureType,
    attribute: u16,
    filter: &Filter,
) -> Result<Option<u8>, NoMemory>
    requires { Suits of.now (tree filter.now) }
    ensures { IfOk result (λ cost. cost ≡ spec.cost_of of.now (Attr attribute) (tree filter.now)) }
{
    if !of.has(IndexKind::Attr(attribute)) {
        return Ok(None);
    }
    match attr_bounds(alloc, of, attribute, filter)? {
        Bound::World => Ok(None),
        Bound::Listed(ranges) => {
            Ok(Some(cost_of_ranges(alloc, of, attribute, ranges.as_slice())?))
        }
    }
}

fn cost_of_ranges(
    alloc: Global,
    of: &FeatureType,
    attribute: u16,
    ranges: &[ByteRange],
) -> Result<u8, NoMemory>
    ensures { IfOk result (λ cost. cost
        ≡ spec.value_cost (slice_get of.now.attributes attribute) ranges.now) }
{
    match of.attributes().as_slice().get(attribute as usize) {
        None => Ok(VALUE_RANGES),
        Some(attribute) => {
            if !are_of_one_value(alloc, attribute.kind, ranges)? {
                Ok(VALUE_RANGES)
            } else if attribute.high {
                Ok(RARE_VALUES)
            } else {
                Ok(VALUES)
            }
        }
    }
}
