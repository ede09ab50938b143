// The plan of a filter.
ghost use Rattle.std.specs.Prelude.{◌≡◌, ◌∷◌, [], true, false, map, IfOk, IfErr};
ghost use Rattle.std.specs.Prelude.{IfSome, Some, None, MatchOption};
ghost use Rattle.std.specs.List.{list_all};
ghost use Rattle.gm_types.specs.Index.{has_index};
ghost use Rattle.gm_filter.specs.Suitability.{Suits, suits};
ghost use Rattle.gm_filter.specs.Tree.{tree};
ghost use Rattle.gm_strategy.specs.declared.fault.ChooseFault.TheVariants as fault;
ghost use Rattle.gm_strategy.specs.Branches.{branches_of, trees_in};
ghost use Rattle.gm_strategy.specs.Choice.{chosen, chosen_of, chosen_for};
ghost use Rattle.gm_strategy.specs.Strategy.{is_bounded, is_split, parts_of, plan_of};

use crate::branches::{BRANCH_LIMIT, first_branches};
use crate::choice::{Choice, choice_for};
use crate::cost::{WHOLE, cost_of};
use crate::{ChooseFault, Part, Plan};
use gm_base::{Items, NoMemory};
use gm_filter::{Filter, copy};
use gm_types::{FeatureType, IndexKind};
use std::alloc::Global;

/// Which index is read for a filter, or which several for the branches of an OR. A hint names an
/// index that is to be read in any case.
pub fn choose(
    alloc: Global,
    of: &FeatureType,
    filter: &Filter,
    hint: Option<IndexKind>,
) -> Result<Plan, ChooseFault>
    requires suits { Suits of.now (tree filter.now) }
    requires index { IfSome hint (λ kind. has_index of.now kind ≡ true) }
    ensures plan { IfOk result (λ plan. plan_of of.now (tree filter.now) hint
        ≡ Some (map chosen_of plan)) }
    ensures refused { IfErr result (λ why. why ≡ fault.NotApplicable
        → plan_of of.now (tree filter.now) hint ≡ None) }
{
    match hint {
        None => Ok(planned(alloc, of, filter)?),
        Some(kind) => hinted(alloc, of, filter, kind),
    }
}

fn hinted(
    alloc: Global,
    of: &FeatureType,
    filter: &Filter,
    kind: IndexKind,
) -> Result<Plan, ChooseFault>
    requires { Suits of.now (tree filter.now) }
    ensures plan { IfOk result (λ plan. plan_of of.now (tree filter.now) (Some kind)
        ≡ Some (map chosen_of plan)) }
    ensures refused { IfErr result (λ why. why ≡ fault.NotApplicable
        → plan_of of.now (tree filter.now) (Some kind) ≡ None) }
{
    match cost_of(alloc, of, kind, filter)? {
        None => Err(ChooseFault::NotApplicable),
        Some(cost) => Ok(one_part(alloc, Choice { kind, cost }, filter)?),
    }
}

fn planned(alloc: Global, of: &FeatureType, filter: &Filter) -> Result<Plan, NoMemory>
    requires { Suits of.now (tree filter.now) }
    ensures { IfOk result (λ plan. map chosen_of plan ≡ parts_of of.now (tree filter.now)) }
{
    let choice = choice_for(alloc, of, filter)?;
    if choice.cost == WHOLE {
        if let Some(parts) = split(alloc, of, filter)? {
            return Ok(parts);
        }
    }
    one_part(alloc, choice, filter)
}

// A part for each branch, where these are few and each is bounded.
fn split(alloc: Global, of: &FeatureType, filter: &Filter) -> Result<Option<Plan>, NoMemory>
    requires { Suits of.now (tree filter.now) }
    ensures { IfOk result (λ parts. MatchOption parts (is_split of.now (tree filter.now) ≡ false)
        (λ plan. (is_split of.now (tree filter.now) ≡ true)
        × (map chosen_of plan ≡ map (chosen_for of.now) (branches_of (tree filter.now))))) }
{
    let branches = first_branches(alloc, filter)?;
    if branches.len() > BRANCH_LIMIT {
        return Ok(None);
    }
    parts_of_branches(alloc, of, branches.as_slice())
}

fn parts_of_branches(
    alloc: Global,
    of: &FeatureType,
    branches: &[&Filter],
) -> Result<Option<Plan>, NoMemory>
    requires { list_all (suits of.now) (trees_in branches.now) ≡ true }
    ensures { IfOk result (λ parts. MatchOption parts
        (list_all (is_bounded of.now) (trees_in branches.now) ≡ false)
        (λ plan. (list_all (is_bounded of.now) (trees_in branches.now) ≡ true)
        × (map chosen_of plan ≡ map (chosen_for of.now) (trees_in branches.now)))) }
{
    let mut parts = Items::new(alloc);
    'branches: for branch in branches {
        let choice = choice_for(alloc, of, branch)?;
        if !choice.is_bounded() {
            return Ok(None);
        }
        parts.push(part_of(alloc, choice, branch)?)?;
    }
    Ok(Some(parts))
}

fn one_part(alloc: Global, choice: Choice, filter: &Filter) -> Result<Plan, NoMemory>
    ensures { IfOk result (λ plan. map chosen_of plan
        ≡ chosen choice.kind choice.cost (tree filter.now) ∷ []) }
{
    let mut parts = Items::new(alloc);
    parts.push(part_of(alloc, choice, filter)?)?;
    Ok(parts)
}

// A part with a filter of its own.
fn part_of(alloc: Global, choice: Choice, filter: &Filter) -> Result<Part, NoMemory>
    ensures { IfOk result (λ part. chosen_of part
        ≡ chosen choice.kind choice.cost (tree filter.now)) }
{
    Ok(Part {
        kind: choice.kind,
        cost: choice.cost,
        filter: copy(alloc, filter)?,
    })
}
