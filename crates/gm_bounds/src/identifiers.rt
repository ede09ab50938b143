// The identifiers of a filter.
ghost use Rattle.std.specs.Prelude.{◌≡◌, ◌++◌, IfOk, OnOk, filter, map};
ghost use Rattle.gm_base.specs.Identifier.{is_identifier};
ghost use Rattle.gm_filter.specs.Tree.{tree, trees_of};
ghost use Rattle.gm_bounds.specs.Bound.{all_of, any_of};
ghost use Rattle.gm_bounds.specs.Identifiers as spec;
ghost use Rattle.gm_bounds.specs.Identifiers.{ids_of, id_rules, IsRising, IsRisingBound};
ghost use Rattle.gm_bounds.specs.Lists.{anywhere, nowhere, both, either};

use crate::{Bound, IdSet};
use gm_base::{FeatureId, IdFault, Items, NoMemory, Text};
use gm_filter::Filter;
use std::alloc::Global;
use std::cmp::Ordering;

/// The identifiers among which that of a feature is of which the filter is true, in byte order and
/// each once. The recursion is as deep as the filter.
#[cycle(identifying)]
pub fn ids(alloc: Global, filter: &Filter) -> Result<IdSet, NoMemory>
    ensures { IfOk result (λ ids. ids ≡ ids_of (tree filter.now)) }
{
    match filter {
        Filter::Exclude => Ok(Bound::Listed(Items::new(alloc))),
        Filter::And(members) => ids_in_all(alloc, members),
        Filter::Or(members) => sorted(ids_in_any(alloc, members)?),
        Filter::Ids(texts) => Ok(Bound::Listed(identifiers(alloc, texts.as_slice())?)),
        _ => Ok(Bound::World),
    }
}

#[cycle(identifying)]
fn ids_in_all(alloc: Global, filters: &[Filter]) -> Result<IdSet, NoMemory>
    ensures { IfOk result (λ ids. ids
        ≡ all_of id_rules anywhere (trees_of (map tree filters.now))) }
{
    let mut found = Bound::World;
    'members: for filter in filters {
        let next = ids(alloc, filter)?;
        found = meet(alloc, found, next)?;
    }
    Ok(found)
}

// What the members list, not yet sorted.
#[cycle(identifying)]
fn ids_in_any(alloc: Global, filters: &[Filter]) -> Result<Bound<FeatureId>, NoMemory>
    ensures { IfOk result (λ ids. ids ≡ any_of id_rules nowhere (trees_of (map tree filters.now))) }
{
    let mut found = Bound::Listed(Items::new(alloc));
    'members: for filter in filters {
        let next = ids(alloc, filter)?;
        found = join(found, next)?;
    }
    Ok(found)
}

// What AND makes of two sets.
fn meet(alloc: Global, one: IdSet, other: IdSet) -> Result<IdSet, NoMemory>
    requires one_rises { IsRisingBound one }
    requires other_rises { IsRisingBound other }
    ensures { IfOk result (λ met. met ≡ both spec.common one other) }
{
    match (one, other) {
        (Bound::World, other) => Ok(other),
        (one, Bound::World) => Ok(one),
        (Bound::Listed(ones), Bound::Listed(others)) => {
            let met = common(alloc, ones.as_slice(), others.as_slice())?;
            Ok(Bound::Listed(Items::from_vec(met)))
        }
    }
}

// What OR makes of two lists, before they are sorted.
fn join(one: Bound<FeatureId>, other: Bound<FeatureId>) -> Result<Bound<FeatureId>, NoMemory>
    ensures { IfOk result (λ all. all ≡ either one other) }
{
    match (one, other) {
        (Bound::Listed(ones), Bound::Listed(others)) => {
            let mut all = ones.into_vec();
            let mut rest = others.into_vec();
            all.append(&mut rest)?;
            Ok(Bound::Listed(Items::from_vec(all)))
        }
        _ => Ok(Bound::World),
    }
}

fn sorted(found: Bound<FeatureId>) -> Result<IdSet, NoMemory>
    ensures { IfOk result (λ ids. ids ≡ spec.sorted_bound found) }
{
    match found {
        Bound::World => Ok(Bound::World),
        Bound::Listed(list) => Ok(Bound::Listed(sorted_once(list.into_vec())?)),
    }
}

// All of them in byte order, each once.
fn sorted_once(mut list: Vec<FeatureId>) -> Result<Items<FeatureId>, NoMemory>
    ensures { IfOk result (λ ids. ids ≡ spec.sorted_once list.items) }
{
    list.sort()?;
    list.dedup();
    Ok(Items::from_vec(list))
}

// Those that are in both lists, by one walk along both.
fn common(
    alloc: Global,
    ones: &[FeatureId],
    others: &[FeatureId],
) -> Result<Vec<FeatureId>, NoMemory>
    requires ones_rise { IsRising ones.now }
    requires others_rise { IsRising others.now }
    ensures { IfOk result (λ met. met.items ≡ spec.common ones.now others.now) }
{
    let mut met = Vec::new(alloc);
    let mut one = 0;
    let mut other = 0;
    'walk: while one < ones.len() && other < others.len() {
        match ones[one].cmp(&others[other]) {
            Ordering::Less => one += 1,
            Ordering::Greater => other += 1,
            Ordering::Equal => {
                met.push(ones[one].copy(alloc)?)?;
                one += 1;
                other += 1;
            }
        }
    }
    Ok(met)
}

// The identifiers among the texts.
fn identifiers(alloc: Global, texts: &[Text]) -> Result<Items<FeatureId>, NoMemory>
    ensures { IfOk result (λ ids. ids ≡ spec.sorted_once (filter is_identifier texts.now)) }
{
    let mut list = Vec::new(alloc);
    'texts: for text in texts {
        push_identifier(alloc, &mut list, text)?;
    }
    sorted_once(list)
}

fn push_identifier(alloc: Global, into: &mut Vec<FeatureId>, text: &Text) -> Result<(), NoMemory>
    ensures { OnOk result (into.new.items ≡ into.old.items ++ spec.if_identifier text.now) }
{
    match FeatureId::of(alloc, text.as_bytes()) {
        Ok(id) => {
            into.push(id)?;
            Ok(())
        }
        Err(IdFault::Form) => Ok(()),
        Err(IdFault::NoMemory) => Err(NoMemory),
    }
}
