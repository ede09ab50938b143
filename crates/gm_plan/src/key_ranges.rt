// The ranges of an index for a filter.
ghost use Rattle.std.specs.Prelude.{◌≡◌, ◌≤◌, ◌∷◌, [], true, map, IfOk};
ghost use Rattle.gm_bounds.specs.Applicability.{does_apply};
ghost use Rattle.gm_bounds.specs.Identifiers.{ids_of};
ghost use Rattle.gm_bounds.specs.declared.ranges.Range.TheVariants.{OneId, All};
ghost use Rattle.gm_filter.specs.Suitability.{Suits};
ghost use Rattle.gm_filter.specs.Tree.{tree};
ghost use Rattle.gm_plan.specs.KeyRanges.{id_ranges, key_ranges, in_shards};

use crate::bounds::{box_list, interval_list, value_list};
use crate::merging::value_ranges;
use crate::plane::{xz2_ranges, z2_ranges};
use crate::space::{xz3_ranges, z3_ranges};
use gm_base::{Items, NoMemory};
use gm_bounds::{Bound, IdList, KeyRanges, Range, RangeList, ids};
use gm_filter::Filter;
use gm_types::{FeatureType, IndexKind};
use std::alloc::Global;

/// The ranges of keys in which each feature lies of which the filter is true, where the index
/// applies. By cells they are at most `target` in each shard.
pub fn ranges(
    alloc: Global,
    of: &FeatureType,
    kind: IndexKind,
    filter: &Filter,
    target: u32,
) -> Result<KeyRanges, NoMemory>
    requires suits { Suits of.now (tree filter.now) }
    requires applies { does_apply of.now kind (tree filter.now) ≡ true }
    requires least { 1 ≤ target }
    requires most { target ≤ 10000 }
    ensures { IfOk result (λ ranges. ranges ≡ key_ranges of.now kind (tree filter.now) target) }
{
    match kind {
        IndexKind::Id => Ok(in_shards(1, id_ranges(alloc, filter)?)),
        IndexKind::Z2 => {
            let boxes = box_list(alloc, of, filter)?;
            let list = z2_ranges(alloc, of, boxes.as_slice(), target)?;
            Ok(in_shards(of.shards(), list))
        }
        IndexKind::Z3 => {
            let boxes = box_list(alloc, of, filter)?;
            let intervals = interval_list(alloc, of, filter)?;
            let list = z3_ranges(alloc, of, boxes.as_slice(), intervals.as_slice(), target)?;
            Ok(in_shards(of.shards(), list))
        }
        IndexKind::Xz2 => {
            let boxes = box_list(alloc, of, filter)?;
            let list = xz2_ranges(alloc, of, boxes.as_slice(), target)?;
            Ok(in_shards(of.shards(), list))
        }
        IndexKind::Xz3 => {
            let boxes = box_list(alloc, of, filter)?;
            let intervals = interval_list(alloc, of, filter)?;
            let list = xz3_ranges(alloc, of, boxes.as_slice(), intervals.as_slice(), target)?;
            Ok(in_shards(of.shards(), list))
        }
        IndexKind::Attr(attribute) => {
            let list = value_list(alloc, of, attribute, filter)?;
            Ok(in_shards(1, value_ranges(alloc, list)?))
        }
    }
}

fn in_shards(shards: u8, ranges: RangeList) -> KeyRanges
    ensures { result ≡ in_shards shards ranges }
{
    KeyRanges { shards, ranges }
}

// One range for each identifier, and all keys where nothing is known of it.
fn id_ranges(alloc: Global, filter: &Filter) -> Result<RangeList, NoMemory>
    ensures { IfOk result (λ list. list ≡ id_ranges (ids_of (tree filter.now))) }
{
    match ids(alloc, filter)? {
        Bound::World => all_keys(alloc),
        Bound::Listed(ids) => one_each(alloc, ids),
    }
}

fn all_keys(alloc: Global) -> Result<RangeList, NoMemory>
    ensures { IfOk result (λ list. list ≡ All ∷ []) }
{
    let mut list = Items::new(alloc);
    list.push(Range::All)?;
    Ok(list)
}

fn one_each(alloc: Global, ids: IdList) -> Result<RangeList, NoMemory>
    ensures { IfOk result (λ list. list ≡ map (λ id. OneId id) ids) }
{
    let mut list = Vec::with_capacity(alloc, ids.len())?;
    'ids: for id in ids.into_vec() {
        list.push(Range::OneId(id))?;
    }
    Ok(Items::from_vec(list))
}
