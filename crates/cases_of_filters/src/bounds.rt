// Cases of bounds, of indexes that apply, and of plans.
ghost use Rattle.std.specs.Prelude.{◌≡◌, true, IfSome};
ghost use Rattle.gm_types.specs.Index.{has_index};
ghost use Rattle.gm_filter.specs.Suitability.{Suits};
ghost use Rattle.gm_filter.specs.Tree.{tree};

use crate::held::filter;
use crate::words::{Halt, push, split, text};
use gm_bounds::{Bound, applies, attr_bounds, boxes, ids, intervals};
use gm_filter::{Filter, suits};
use gm_strategy::{ChooseFault, choose};
use gm_types::{FeatureType, IndexKind, enabled_indexes, index_name};
use std::alloc::{AllocError, Global};

pub fn answer(
    alloc: Global,
    of: &FeatureType,
    word: &str,
    filter: &Filter,
) -> Result<String, Halt> {
    if !suits(filter, of) {
        return Err(Halt::Form);
    }
    match word {
        "boxes" => boxes_of(alloc, of, filter),
        "intervals" => intervals_of(alloc, of, filter),
        "ids" => ids_of(alloc, filter),
        "applies" => applying(alloc, of, filter),
        "plan" => plan_of(alloc, of, filter, None),
        _ => Err(Halt::Form),
    }
}

fn boxes_of(alloc: Global, of: &FeatureType, filter: &Filter) -> Result<String, Halt>
    requires { Suits of.now (tree filter.now) }
{
    let Bound::Listed(list) = boxes(alloc, of, filter)? else {
        return text(alloc, "world");
    };
    let mut told = String::new(alloc);
    for area in list.as_slice() {
        let (low, high) = (area.low, area.high);
        let one = format!(in alloc; "[{} {} {} {}]", low.x, low.y, high.x, high.y);
        put(&mut told, one)?;
    }
    Ok(told)
}

fn put(told: &mut String, one: Result<String, AllocError>) -> Result<(), Halt> {
    match one {
        Ok(one) => push(told, one.as_str()),
        Err(_) => Err(Halt::NoMemory),
    }
}

fn intervals_of(alloc: Global, of: &FeatureType, filter: &Filter) -> Result<String, Halt>
    requires { Suits of.now (tree filter.now) }
{
    let Bound::Listed(list) = intervals(alloc, of, filter)? else {
        return text(alloc, "world");
    };
    let mut told = String::new(alloc);
    for interval in list.as_slice() {
        push(&mut told, "[")?;
        put_end(alloc, &mut told, interval.low)?;
        push(&mut told, "..")?;
        put_end(alloc, &mut told, interval.high)?;
        push(&mut told, "]")?;
    }
    Ok(told)
}

fn put_end(alloc: Global, told: &mut String, end: Option<i64>) -> Result<(), Halt> {
    match end {
        Some(ms) => put(told, format!(in alloc; "{ms}")),
        None => Ok(()),
    }
}

/// Behind the number of an attribute, a filter.
pub fn ranges_of(alloc: Global, of: &FeatureType, rest: &str) -> Result<String, Halt> {
    let (attribute, rest) = split(rest, ' ');
    let Ok(attribute) = attribute.parse::<u16>() else {
        return Err(Halt::Form);
    };
    let filter = filter(alloc, of, rest)?;
    if suits(&filter, of) {
        ranges_in(alloc, of, attribute, &filter)
    } else {
        Err(Halt::Form)
    }
}

fn ranges_in(
    alloc: Global,
    of: &FeatureType,
    attribute: u16,
    filter: &Filter,
) -> Result<String, Halt>
    requires { Suits of.now (tree filter.now) }
{
    let Bound::Listed(list) = attr_bounds(alloc, of, attribute, filter)? else {
        return text(alloc, "world");
    };
    let mut told = String::new(alloc);
    for range in list.as_slice() {
        push(&mut told, "[")?;
        put_hex(alloc, &mut told, range.low.as_slice())?;
        push(&mut told, "..")?;
        if let Some(high) = &range.high {
            put_hex(alloc, &mut told, high.as_slice())?;
        }
        push(&mut told, "]")?;
    }
    Ok(told)
}

fn put_hex(alloc: Global, told: &mut String, bytes: &[u8]) -> Result<(), Halt> {
    for byte in bytes {
        put(told, format!(in alloc; "{byte:02x}"))?;
    }
    Ok(())
}

fn ids_of(alloc: Global, filter: &Filter) -> Result<String, Halt> {
    let Bound::Listed(list) = ids(alloc, filter)? else {
        return text(alloc, "world");
    };
    let mut told = String::new(alloc);
    for id in list.as_slice() {
        push(&mut told, "[")?;
        push(&mut told, id.as_str())?;
        push(&mut told, "]")?;
    }
    Ok(told)
}

// The names of the indexes that apply.
fn applying(alloc: Global, of: &FeatureType, filter: &Filter) -> Result<String, Halt>
    requires { Suits of.now (tree filter.now) }
{
    let mut told = String::new(alloc);
    let kinds = enabled_indexes(alloc, of)?;
    for kind in kinds.as_slice() {
        if applies(alloc, of, *kind, filter)? {
            put_index(alloc, &mut told, of, *kind)?;
        }
    }
    Ok(told)
}

fn put_index(
    alloc: Global,
    told: &mut String,
    of: &FeatureType,
    kind: IndexKind,
) -> Result<(), Halt> {
    let name = index_name(alloc, of, kind)?;
    push(told, "[")?;
    push(told, name.as_str())?;
    push(told, "]")
}

/// Behind the name of an index, a filter.
pub fn hinted(alloc: Global, of: &FeatureType, rest: &str) -> Result<String, Halt> {
    let (name, rest) = split(rest, ' ');
    let filter = filter(alloc, of, rest)?;
    match of.index_named(name.as_bytes()) {
        Some(kind) if suits(&filter, of) => plan_of(alloc, of, &filter, Some(kind)),
        _ => Err(Halt::Form),
    }
}

fn plan_of(
    alloc: Global,
    of: &FeatureType,
    filter: &Filter,
    hint: Option<IndexKind>,
) -> Result<String, Halt>
    requires suits { Suits of.now (tree filter.now) }
    requires index { IfSome hint (λ kind. has_index of.now kind ≡ true) }
{
    let plan = match choose(alloc, of, filter, hint) {
        Ok(plan) => plan,
        Err(ChooseFault::NotApplicable) => return text(alloc, "not applicable"),
        Err(ChooseFault::NoMemory) => return Err(Halt::NoMemory),
    };
    let mut told = String::new(alloc);
    for part in plan.as_slice() {
        put_index(alloc, &mut told, of, part.kind)?;
        put(&mut told, format!(in alloc; "{}", part.cost))?;
    }
    Ok(told)
}
