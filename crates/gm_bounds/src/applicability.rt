// Which indexes apply to a filter.
ghost use Rattle.std.specs.Prelude.{◌≡◌, ◌&&◌, IfOk};
ghost use Rattle.gm_filter.specs.Suitability.{Suits};
ghost use Rattle.gm_filter.specs.Tree.{tree};
ghost use Rattle.gm_bounds.specs.Applicability as spec;
ghost use Rattle.gm_bounds.specs.Applicability.{does_apply};
ghost use Rattle.gm_bounds.specs.Space.{boxes_of};
ghost use Rattle.gm_bounds.specs.Values.{byte_ranges_of};
ghost use Rattle.gm_bounds.specs.Time.{intervals_of};

use crate::{Bound, Interval, attr_bounds, boxes, intervals};
use gm_base::NoMemory;
use gm_filter::Filter;
use gm_types::{FeatureType, IndexKind};
use std::alloc::Global;

/// Whether an index applies: the type has it, and the filter says where in it to look. That of
/// identifiers always does.
pub fn applies(
    alloc: Global,
    of: &FeatureType,
    kind: IndexKind,
    filter: &Filter,
) -> Result<bool, NoMemory>
    requires { Suits of.now (tree filter.now) }
    ensures { IfOk result (λ b. b ≡ does_apply of.now kind (tree filter.now)) }
{
    if of.has(kind) {
        can_serve(alloc, of, kind, filter)
    } else {
        Ok(false)
    }
}

fn can_serve(
    alloc: Global,
    of: &FeatureType,
    kind: IndexKind,
    filter: &Filter,
) -> Result<bool, NoMemory>
    requires { Suits of.now (tree filter.now) }
    ensures { IfOk result (λ b. b ≡ spec.can_serve of.now kind (tree filter.now)) }
{
    match kind {
        IndexKind::Id => Ok(true),
        IndexKind::Z2 => has_boxes(alloc, of, filter),
        IndexKind::Z3 => has_boxes_in_time(alloc, of, filter),
        IndexKind::Xz2 => has_boxes(alloc, of, filter),
        IndexKind::Xz3 => has_boxes_in_time(alloc, of, filter),
        IndexKind::Attr(attribute) => has_ranges(alloc, of, attribute, filter),
    }
}

fn has_boxes(alloc: Global, of: &FeatureType, filter: &Filter) -> Result<bool, NoMemory>
    requires { Suits of.now (tree filter.now) }
    ensures { IfOk result (λ b. b ≡ spec.is_listed (boxes_of of.now (tree filter.now))) }
{
    match boxes(alloc, of, filter)? {
        Bound::World => Ok(false),
        Bound::Listed(_) => Ok(true),
    }
}

fn has_boxes_in_time(alloc: Global, of: &FeatureType, filter: &Filter) -> Result<bool, NoMemory>
    requires { Suits of.now (tree filter.now) }
    ensures { IfOk result (λ b. b
        ≡ (spec.is_listed (boxes_of of.now (tree filter.now))
        && spec.are_bounded (intervals_of of.now (tree filter.now)))) }
{
    if has_boxes(alloc, of, filter)? {
        is_in_time(alloc, of, filter)
    } else {
        Ok(false)
    }
}

fn is_in_time(alloc: Global, of: &FeatureType, filter: &Filter) -> Result<bool, NoMemory>
    requires { Suits of.now (tree filter.now) }
    ensures { IfOk result (λ b. b ≡ spec.are_bounded (intervals_of of.now (tree filter.now))) }
{
    match intervals(alloc, of, filter)? {
        Bound::World => Ok(false),
        Bound::Listed(list) => Ok(are_bounded(list.as_slice())),
    }
}

fn are_bounded(intervals: &[Interval]) -> bool
    ensures { result ≡ spec.are_all_bounded intervals.now }
{
    intervals.iter().all(|interval| has_both_ends(*interval))
}

fn has_both_ends(interval: Interval) -> bool
    ensures { result ≡ spec.has_both_ends interval }
{
    interval.low.is_some() && interval.high.is_some()
}

fn has_ranges(
    alloc: Global,
    of: &FeatureType,
    attribute: u16,
    filter: &Filter,
) -> Result<bool, NoMemory>
    requires { Suits of.now (tree filter.now) }
    ensures { IfOk result (λ b. b
        ≡ spec.is_listed (byte_ranges_of of.now attribute (tree filter.now))) }
{
    match attr_bounds(alloc, of, attribute, filter)? {
        Bound::World => Ok(false),
        Bound::Listed(_) => Ok(true),
    }
}
