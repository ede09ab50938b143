// The byte ranges of a filter.
ghost use Rattle.std.specs.Prelude.{◌≡◌, ◌++◌, ◌+ℤ◌, pos, IfOk, OnOk, Some, None, map};
ghost use Rattle.gm_lexi.specs.Lexicode.{date_bytes};
ghost use Rattle.gm_types.specs.Specification.{kind_at};
ghost use Rattle.gm_filter.specs.Like as like;
ghost use Rattle.gm_filter.specs.Suitability.{Suits};
ghost use Rattle.gm_filter.specs.Tree.{tree, trees_of};
ghost use Rattle.gm_bounds.specs.Bound.{bound_of, all_of, any_of, on};
ghost use Rattle.gm_bounds.specs.ByteRange as range;
ghost use Rattle.gm_bounds.specs.Values as spec;
ghost use Rattle.gm_bounds.specs.Values.{byte_ranges_of, range_rules};
ghost use Rattle.gm_bounds.specs.Lists.{single, listed, kept, nowhere, anywhere};

use crate::forms::{has_zero, literal_form, text_form};
use crate::lists::{capped, counted, join, meet, push_some, single};
use crate::{Bound, ByteBounds, ByteRange};
use gm_base::{Bytes, Items, NoMemory, Text};
use gm_calendar::Instant;
use gm_filter::{Filter, Literal, Op};
use gm_lexi::{after, put_date, put_long};
use gm_types::{FeatureType, Kind};
use std::alloc::Global;

/// Where the lexicoded value of an attribute is, of a feature of which the filter is true: in one
/// of the ranges. The recursion is as deep as the filter.
pub fn attr_bounds(
    alloc: Global,
    of: &FeatureType,
    attribute: u16,
    filter: &Filter,
) -> Result<ByteBounds, NoMemory>
    requires { Suits of.now (tree filter.now) }
    ensures { IfOk result (λ ranges. ranges ≡ byte_ranges_of of.now attribute (tree filter.now)) }
{
    match kind_of(of, attribute) {
        None => Ok(Bound::World),
        Some(kind) => ranges_in(alloc, filter, attribute, kind),
    }
}

fn kind_of(of: &FeatureType, at: u16) -> Option<Kind>
    ensures { result ≡ kind_at of.now at }
{
    let attribute = of.attributes().as_slice().get(at as usize)?;
    Some(attribute.kind)
}

#[cycle(valuing)]
fn ranges_in(alloc: Global, filter: &Filter, at: u16, kind: Kind) -> Result<ByteBounds, NoMemory>
    ensures { IfOk result (λ ranges. ranges ≡ bound_of (range_rules at kind) (tree filter.now)) }
{
    match filter {
        Filter::Exclude => Ok(Bound::Listed(Items::new(alloc))),
        Filter::And(members) => ranges_in_all(alloc, members, at, kind),
        Filter::Or(members) => counted(alloc, ranges_in_any(alloc, members, at, kind)?),
        Filter::Compare(tested, op, literal) if *tested == at => {
            compared(alloc, *op, literal_form(alloc, kind, literal)?)
        }
        Filter::Between(tested, low, high) if *tested == at => {
            lying_between(alloc, kind, low, high)
        }
        Filter::Like(tested, pattern) if *tested == at => patterned(alloc, pattern),
        Filter::OneOf(tested, literals) if *tested == at => {
            ranges(alloc, kind, literals.as_slice())
        }
        Filter::During(tested, low, high) if *tested == at => during(alloc, *low, *high),
        Filter::Before(tested, end) => dated_on(alloc, *tested, at, Op::Lt, *end),
        Filter::After(tested, start) => dated_on(alloc, *tested, at, Op::Gt, *start),
        Filter::Tequals(tested, instant) => dated_on(alloc, *tested, at, Op::Eq, *instant),
        _ => Ok(Bound::World),
    }
}

#[cycle(valuing)]
fn ranges_in_all(
    alloc: Global,
    filters: &[Filter],
    at: u16,
    kind: Kind,
) -> Result<ByteBounds, NoMemory>
    ensures { IfOk result (λ ranges. ranges
        ≡ all_of (range_rules at kind) anywhere (trees_of (map tree filters.now))) }
{
    let mut found = Bound::World;
    'members: for filter in filters {
        let next = ranges_in(alloc, filter, at, kind)?;
        found = meet(alloc, found, next, true)?;
    }
    Ok(found)
}

#[cycle(valuing)]
fn ranges_in_any(
    alloc: Global,
    filters: &[Filter],
    at: u16,
    kind: Kind,
) -> Result<ByteBounds, NoMemory>
    ensures { IfOk result (λ ranges. ranges
        ≡ any_of (range_rules at kind) nowhere (trees_of (map tree filters.now))) }
{
    let mut found = Bound::Listed(Items::new(alloc));
    'members: for filter in filters {
        let next = ranges_in(alloc, filter, at, kind)?;
        found = join(found, next)?;
    }
    Ok(found)
}

fn ranging(alloc: Global, low: Bytes, high: Option<Bytes>) -> Result<ByteBounds, NoMemory>
    ensures { IfOk result (λ ranges. ranges ≡ spec.ranging low high) }
{
    single(alloc, ByteRange { low, high })
}

// The range of all that begins with the bytes.
fn beginning(alloc: Global, bytes: Bytes) -> Result<ByteRange, NoMemory>
    ensures { IfOk result (λ range. range ≡ spec.beginning bytes) }
{
    let high = after(alloc, bytes.as_slice())?;
    Ok(ByteRange { low: bytes, high })
}

fn compared(alloc: Global, op: Op, form: Option<Bytes>) -> Result<ByteBounds, NoMemory>
    ensures { IfOk result (λ ranges. ranges ≡ spec.compared op form) }
{
    match form {
        Some(form) => compared_form(alloc, op, form),
        None => compared_none(alloc, op),
    }
}

fn compared_none(alloc: Global, op: Op) -> Result<ByteBounds, NoMemory>
    ensures { IfOk result (λ ranges. ranges ≡ spec.compared_none op) }
{
    match op {
        Op::Eq => Ok(Bound::Listed(Items::new(alloc))),
        _ => Ok(Bound::World),
    }
}

fn compared_form(alloc: Global, op: Op, form: Bytes) -> Result<ByteBounds, NoMemory>
    ensures { IfOk result (λ ranges. ranges ≡ spec.compared_form op form) }
{
    match op {
        Op::Eq => single(alloc, beginning(alloc, form)?),
        Op::Ne => Ok(Bound::World),
        Op::Lt => ranging(alloc, Bytes::new(alloc), Some(form)),
        Op::Le => ranging(alloc, Bytes::new(alloc), after(alloc, form.as_slice())?),
        Op::Gt => ranging_from(alloc, after(alloc, form.as_slice())?),
        Op::Ge => ranging(alloc, form, None),
    }
}

fn ranging_from(alloc: Global, low: Option<Bytes>) -> Result<ByteBounds, NoMemory>
    ensures { IfOk result (λ ranges. ranges ≡ spec.ranging_from low) }
{
    match low {
        Some(low) => ranging(alloc, low, None),
        None => Ok(Bound::Listed(Items::new(alloc))),
    }
}

fn lying_between(
    alloc: Global,
    kind: Kind,
    low: &Literal,
    high: &Literal,
) -> Result<ByteBounds, NoMemory>
    ensures { IfOk result (λ ranges. ranges
        ≡ spec.lying_between (spec.literal_form kind low.now) (spec.literal_form kind high.now)) }
{
    let low = literal_form(alloc, kind, low)?;
    let high = literal_form(alloc, kind, high)?;
    match (low, high) {
        (Some(low), Some(high)) => ranging(alloc, low, after(alloc, high.as_slice())?),
        _ => Ok(Bound::World),
    }
}

// One range for each literal that has a form.
fn ranges(alloc: Global, kind: Kind, literals: &[Literal]) -> Result<ByteBounds, NoMemory>
    ensures { IfOk result (λ ranges. ranges
        ≡ listed range.is_void range.joined (spec.ranges_of kind literals.now)) }
{
    let mut list = Vec::new(alloc);
    'literals: for literal in literals {
        let form = literal_form(alloc, kind, literal)?;
        push_form(alloc, &mut list, form)?;
    }
    Ok(Bound::Listed(capped(alloc, list)?))
}

fn push_form(alloc: Global, into: &mut Vec<ByteRange>, form: Option<Bytes>) -> Result<(), NoMemory>
    ensures { OnOk result (into.new.items
        ≡ into.old.items ++ kept range.is_void (spec.range_of form)) }
{
    match form {
        Some(form) => push_some(into, beginning(alloc, form)?),
        None => Ok(()),
    }
}

fn patterned(alloc: Global, pattern: &Text) -> Result<ByteBounds, NoMemory>
    ensures { IfOk result (λ ranges. ranges ≡ spec.patterned pattern.now) }
{
    if has_wildcard(pattern.as_bytes()) {
        begun_by(alloc, pattern.as_bytes(), plain_front(pattern.as_bytes()))
    } else {
        compared(alloc, Op::Eq, text_form(alloc, pattern)?)
    }
}

fn begun_by(alloc: Global, pattern: &[u8], front: &[u8]) -> Result<ByteBounds, NoMemory>
    ensures { IfOk result (λ ranges. ranges ≡ spec.begun_by pattern.now front.now) }
{
    if front.is_empty() || has_zero(pattern) {
        return Ok(Bound::World);
    }
    let front = Bytes::from_slice(alloc, front)?;
    single(alloc, beginning(alloc, front)?)
}

fn is_wildcard(byte: u8) -> bool
    ensures { result ≡ like.is_wildcard byte }
{
    byte == b'%' || byte == b'_'
}

fn has_wildcard(pattern: &[u8]) -> bool
    ensures { result ≡ like.has_wildcard pattern.now }
{
    pattern.iter().any(|byte| is_wildcard(*byte))
}

// What stands before the first `%` or `_`.
fn plain_front(pattern: &[u8]) -> &[u8]
    ensures { result.now ≡ like.plain_front pattern.now }
{
    let mut end = 0;
    while end < pattern.len() && !is_wildcard(pattern[end]) {
        end += 1;
    }
    &pattern[..end]
}

fn during(alloc: Global, low: Instant, high: Instant) -> Result<ByteBounds, NoMemory>
    ensures { IfOk result (λ ranges. ranges
        ≡ spec.ranging (date_bytes (low +ℤ pos 1)) (Some (date_bytes high))) }
{
    let mut start = Bytes::new(alloc);
    put_long(alloc, &mut start, low.ms() + 1)?;
    ranging(alloc, start, Some(date_form(alloc, high)?))
}

fn date_form(alloc: Global, at: Instant) -> Result<Bytes, NoMemory>
    ensures { IfOk result (λ form. form ≡ date_bytes at) }
{
    let mut form = Bytes::new(alloc);
    put_date(alloc, &mut form, at)?;
    Ok(form)
}

fn dated_on(
    alloc: Global,
    tested: u16,
    at: u16,
    op: Op,
    instant: Instant,
) -> Result<ByteBounds, NoMemory>
    ensures { IfOk result (λ ranges. ranges
        ≡ on tested at (spec.compared_form op (date_bytes instant))) }
{
    if tested == at {
        compared_form(alloc, op, date_form(alloc, instant)?)
    } else {
        Ok(Bound::World)
    }
}
