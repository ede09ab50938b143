// Lists of boxes, intervals or ranges, and what AND and OR make of them.
ghost use Rattle.std.specs.Prelude.{◌≡◌, ◌++◌, [], ◌∷◌, IfOk, OnOk};
ghost use Rattle.gm_bounds.specs.Lists as spec;

use crate::Bound;
use crate::member::Member;
use gm_base::{Items, NoMemory};
use std::alloc::Global;

/// The greatest length of a list of boxes, intervals or ranges. A longer one becomes the one hull.
pub const LIST_LIMIT: usize = 8;

// The bound of one place, if anything lies in it.
pub(crate) fn single<T: Member>(alloc: Global, item: T) -> Result<Bound<T>, NoMemory>
    ensures { IfOk result (λ bound. bound ≡ spec.single T.is_void item) }
{
    let mut list = Vec::new(alloc);
    push_some(&mut list, item)?;
    Ok(Bound::Listed(Items::from_vec(list)))
}

// Appends a place, if anything lies in it.
pub(crate) fn push_some<T: Member>(into: &mut Vec<T>, item: T) -> Result<(), NoMemory>
    ensures { OnOk result (into.new.items ≡ into.old.items ++ spec.kept T.is_void (item ∷ [])) }
{
    if item.is_empty() {
        return Ok(());
    }
    into.push(item)?;
    Ok(())
}

// A list that is not too long as it is, and else its hull.
pub(crate) fn capped<T: Member>(alloc: Global, list: Vec<T>) -> Result<Items<T>, NoMemory>
    ensures { IfOk result (λ few. few ≡ spec.capped T.joined list.items) }
{
    if list.len() <= LIST_LIMIT {
        return Ok(Items::from_vec(list));
    }
    let mut one = Vec::new(alloc);
    if let Some(hull) = hull_of(list) {
        one.push(hull)?;
    }
    Ok(Items::from_vec(one))
}

// The least place that holds all of the list.
fn hull_of<T: Member>(list: Vec<T>) -> Option<T>
    ensures { result ≡ spec.hull_of T.joined list.items }
{
    let mut hull = None;
    'places: for item in list {
        hull = Some(widened(hull, item));
    }
    hull
}

fn widened<T: Member>(hull: Option<T>, item: T) -> T
    ensures { result ≡ spec.widened T.joined hull item }
{
    match hull {
        None => item,
        Some(held) => held.join(item),
    }
}

// What AND makes of two bounds: in pairs what lies in both, and else the first list.
pub(crate) fn meet<T: Member>(
    alloc: Global,
    one: Bound<T>,
    other: Bound<T>,
    in_pairs: bool,
) -> Result<Bound<T>, NoMemory>
    ensures { IfOk result (λ both. both
        ≡ spec.both (spec.meeting in_pairs T.met T.is_void T.joined) one other) }
{
    match (one, other) {
        (Bound::World, other) => Ok(other),
        (one, Bound::World) => Ok(one),
        (Bound::Listed(ones), Bound::Listed(others)) => {
            if !in_pairs {
                return Ok(Bound::Listed(ones));
            }
            let met = pairs(alloc, ones.as_slice(), others.as_slice())?;
            Ok(Bound::Listed(capped(alloc, met)?))
        }
    }
}

fn pairs<T: Member>(alloc: Global, ones: &[T], others: &[T]) -> Result<Vec<T>, NoMemory>
    ensures { IfOk result (λ all. all.items ≡ spec.pairs T.met T.is_void ones.now others.now) }
{
    let mut all = Vec::new(alloc);
    'ones: for one in ones {
        push_pairs(alloc, &mut all, one, others)?;
    }
    Ok(all)
}

fn push_pairs<T: Member>(
    alloc: Global,
    into: &mut Vec<T>,
    one: &T,
    others: &[T],
) -> Result<(), NoMemory>
    ensures { OnOk result (into.new.items
        ≡ into.old.items ++ spec.pairs_of T.met T.is_void one.now others.now) }
{
    'others: for other in others {
        let both = one.meet(alloc, other)?;
        push_some(into, both)?;
    }
    Ok(())
}

// What OR makes of two bounds, before the list is counted.
pub(crate) fn join<T: Member>(one: Bound<T>, other: Bound<T>) -> Result<Bound<T>, NoMemory>
    ensures { IfOk result (λ either. either ≡ spec.either one other) }
{
    match (one, other) {
        (Bound::Listed(ones), Bound::Listed(others)) => {
            let mut all = ones.into_vec();
            let mut rest = others.into_vec();
            all.append(&mut rest)?;
            Ok(Bound::Listed(Items::from_vec(all)))
        }
        _ => Ok(Bound::World),
    }
}

// The bound with a list that is not too long.
pub(crate) fn counted<T: Member>(alloc: Global, bound: Bound<T>) -> Result<Bound<T>, NoMemory>
    ensures { IfOk result (λ few. few ≡ spec.counted (spec.capped T.joined) bound) }
{
    match bound {
        Bound::World => Ok(Bound::World),
        Bound::Listed(list) => Ok(Bound::Listed(capped(alloc, list.into_vec())?)),
    }
}
