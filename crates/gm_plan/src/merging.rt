// Byte ranges in order, those that overlap or touch made one.
ghost use Rattle.std.specs.Prelude.{◌≡◌, ◌++◌, ◌∷◌, [], List, IfOk};
ghost use Rattle.gm_bounds.specs.ByteRange as range;
ghost use Rattle.gm_bounds.specs.declared.byte_range.ByteRange.{ByteRange};
ghost use Rattle.gm_plan.specs.KeyRanges.{value_ranges};
ghost use Rattle.gm_plan.specs.Merging as spec;

use gm_base::{Bytes, Items, NoMemory};
use gm_bounds::{ByteRange, ByteRangeItems, Range, RangeList};
use std::alloc::Global;

/// The ranges of values, in order and merged.
pub(crate) fn value_ranges(alloc: Global, list: ByteRangeItems) -> Result<RangeList, NoMemory>
    ensures { IfOk result (λ ranges. ranges ≡ value_ranges list) }
{
    let all = merged(alloc, list.into_vec())?;
    let mut ranges = Vec::with_capacity(alloc, all.len())?;
    'merged: for range in all {
        ranges.push(Range::Values(range.low, range.high))?;
    }
    Ok(Items::from_vec(ranges))
}

fn merged(alloc: Global, list: Vec<ByteRange>) -> Result<Vec<ByteRange>, NoMemory>
    ensures { IfOk result (λ all. all.items ≡ spec.merged list.items) }
{
    let mut all = Vec::new(alloc);
    'list: for range in list {
        all = merged_in(alloc, range, all)?;
    }
    Ok(all)
}

// A range put in its place among ranges in order, of which there are few.
fn merged_in(
    alloc: Global,
    range: ByteRange,
    ranges: Vec<ByteRange>,
) -> Result<Vec<ByteRange>, NoMemory>
    ensures { IfOk result (λ all. all.items ≡ spec.merged_in range ranges.items) }
{
    let mut all = Vec::with_capacity(alloc, ranges.len())?;
    let mut kept = Some(range);
    'each: for next in ranges {
        kept = put_one(&mut all, kept, next)?;
    }
    let whole = closed(all, kept)?;
    Ok(whole)
}

// With the range that is still kept back at the end.
fn closed(mut all: Vec<ByteRange>, kept: Option<ByteRange>) -> Result<Vec<ByteRange>, NoMemory>
    ensures { IfOk result (λ whole. whole.items ≡ all.items ++ spec.pending kept []) }
{
    match kept {
        Some(last) => {
            all.push(last)?;
            Ok(all)
        }
        None => Ok(all),
    }
}

// One range more: behind one that is still kept back, before it, or joined with it.
fn put_one(
    all: &mut Vec<ByteRange>,
    kept: Option<ByteRange>,
    next: ByteRange,
) -> Result<Option<ByteRange>, NoMemory>
    ensures { IfOk result (λ left. (rest : List ByteRange)
        → all.new.items ++ spec.pending left rest
        ≡ all.old.items ++ spec.pending kept (next ∷ rest)) }
{
    match kept {
        None => {
            all.push(next)?;
            Ok(None)
        }
        Some(range) => {
            if stands_before(&range, &next) {
                all.push(range)?;
                all.push(next)?;
                return Ok(None);
            }
            if stands_before(&next, &range) {
                all.push(next)?;
                return Ok(Some(range));
            }
            Ok(Some(joined(range, next)))
        }
    }
}

// The one ends before the other begins, and they don't touch.
fn stands_before(one: &ByteRange, other: &ByteRange) -> bool
    ensures { result ≡ spec.stands_before one.now other.now }
{
    match &one.high {
        Some(high) => *high < other.low,
        None => false,
    }
}

fn joined(one: ByteRange, other: ByteRange) -> ByteRange
    ensures { result ≡ range.joined one other }
{
    let ByteRange { low, high } = one;
    ByteRange {
        low: earlier(low, other.low),
        high: later(high, other.high),
    }
}

fn earlier(one: Bytes, other: Bytes) -> Bytes
    ensures { result ≡ range.less one other }
{
    if other < one { other } else { one }
}

fn later(one: Option<Bytes>, other: Option<Bytes>) -> Option<Bytes>
    ensures { result ≡ range.greater_end one other }
{
    match (one, other) {
        (Some(a), Some(b)) => Some(if a < b { b } else { a }),
        _ => None,
    }
}
