// The intervals of a filter.
ghost use Rattle.std.specs.Prelude.{◌≡◌, IfOk, OnOk, map, pos, ◌+ℤ◌, ◌-ℤ◌, Some, None, ◌++◌};
ghost use Rattle.gm_filter.specs.Suitability.{Suits};
ghost use Rattle.gm_filter.specs.Tree.{tree, trees_of};
ghost use Rattle.gm_bounds.specs.Bound.{bound_of, all_of, any_of, on};
ghost use Rattle.gm_bounds.specs.Lists.{listed, kept, nowhere, anywhere};
ghost use Rattle.gm_bounds.specs.Interval as interval;
ghost use Rattle.gm_bounds.specs.Time as spec;
ghost use Rattle.gm_bounds.specs.Time.{intervals_of, interval_rules};

use crate::lists::{capped, counted, join, meet, push_some, single};
use crate::{Bound, Interval, Intervals};
use gm_base::{Items, NoMemory};
use gm_calendar::Instant;
use gm_filter::{Filter, Literal, Op};
use gm_types::FeatureType;
use std::alloc::Global;

/// Where the default date of a feature is of which the filter is true: in one of the intervals. The
/// recursion is as deep as the filter.
pub fn intervals(alloc: Global, of: &FeatureType, filter: &Filter) -> Result<Intervals, NoMemory>
    requires { Suits of.now (tree filter.now) }
    ensures { IfOk result (λ intervals. intervals ≡ intervals_of of.now (tree filter.now)) }
{
    match of.default_date() {
        None => Ok(Bound::World),
        Some(at) => intervals_in(alloc, filter, at),
    }
}

#[cycle(timing)]
fn intervals_in(alloc: Global, filter: &Filter, at: u16) -> Result<Intervals, NoMemory>
    ensures { IfOk result (λ intervals. intervals
        ≡ bound_of (interval_rules at) (tree filter.now)) }
{
    match filter {
        Filter::Exclude => Ok(Bound::Listed(Items::new(alloc))),
        Filter::And(members) => intervals_in_all(alloc, members, at),
        Filter::Or(members) => counted(alloc, intervals_in_any(alloc, members, at)?),
        Filter::Compare(tested, op, literal) if *tested == at => compared(alloc, *op, literal),
        Filter::Between(tested, low, high) if *tested == at => lying_between(alloc, low, high),
        Filter::OneOf(tested, literals) if *tested == at => instants(alloc, literals.as_slice()),
        Filter::During(tested, low, high) if *tested == at => during(alloc, *low, *high),
        Filter::Before(tested, end) => dated_on(alloc, *tested, at, Op::Lt, *end),
        Filter::After(tested, start) => dated_on(alloc, *tested, at, Op::Gt, *start),
        Filter::Tequals(tested, instant) => dated_on(alloc, *tested, at, Op::Eq, *instant),
        _ => Ok(Bound::World),
    }
}

#[cycle(timing)]
fn intervals_in_all(alloc: Global, filters: &[Filter], at: u16) -> Result<Intervals, NoMemory>
    ensures { IfOk result (λ intervals. intervals
        ≡ all_of (interval_rules at) anywhere (trees_of (map tree filters.now))) }
{
    let mut found = Bound::World;
    'members: for filter in filters {
        let next = intervals_in(alloc, filter, at)?;
        found = meet(alloc, found, next, true)?;
    }
    Ok(found)
}

#[cycle(timing)]
fn intervals_in_any(alloc: Global, filters: &[Filter], at: u16) -> Result<Intervals, NoMemory>
    ensures { IfOk result (λ intervals. intervals
        ≡ any_of (interval_rules at) nowhere (trees_of (map tree filters.now))) }
{
    let mut found = Bound::Listed(Items::new(alloc));
    'members: for filter in filters {
        let next = intervals_in(alloc, filter, at)?;
        found = join(found, next)?;
    }
    Ok(found)
}

fn lasting(alloc: Global, low: Option<i64>, high: Option<i64>) -> Result<Intervals, NoMemory>
    ensures { IfOk result (λ intervals. intervals ≡ spec.lasting low high) }
{
    single(alloc, Interval { low, high })
}

fn dated(alloc: Global, op: Op, at: Instant) -> Result<Intervals, NoMemory>
    ensures { IfOk result (λ intervals. intervals ≡ spec.dated op at) }
{
    let ms = at.ms();
    match op {
        Op::Eq => lasting(alloc, Some(ms), Some(ms)),
        Op::Ne => Ok(Bound::World),
        Op::Lt => lasting(alloc, None, Some(ms - 1)),
        Op::Le => lasting(alloc, None, Some(ms)),
        Op::Gt => lasting(alloc, Some(ms + 1), None),
        Op::Ge => lasting(alloc, Some(ms), None),
    }
}

// After the one instant and before the other.
fn during(alloc: Global, low: Instant, high: Instant) -> Result<Intervals, NoMemory>
    ensures { IfOk result (λ intervals. intervals
        ≡ spec.lasting (Some (low +ℤ pos 1)) (Some (high -ℤ pos 1))) }
{
    lasting(alloc, Some(low.ms() + 1), Some(high.ms() - 1))
}

fn dated_on(
    alloc: Global,
    tested: u16,
    at: u16,
    op: Op,
    instant: Instant,
) -> Result<Intervals, NoMemory>
    ensures { IfOk result (λ intervals. intervals ≡ on tested at (spec.dated op instant)) }
{
    if tested == at {
        dated(alloc, op, instant)
    } else {
        Ok(Bound::World)
    }
}

fn compared(alloc: Global, op: Op, literal: &Literal) -> Result<Intervals, NoMemory>
    ensures { IfOk result (λ intervals. intervals ≡ spec.compared op literal.now) }
{
    match literal {
        Literal::Date(at) => dated(alloc, op, *at),
        Literal::Number(_) => Ok(Bound::World),
        Literal::Text(_) => Ok(Bound::World),
        Literal::Truth(_) => Ok(Bound::World),
    }
}

fn lying_between(alloc: Global, low: &Literal, high: &Literal) -> Result<Intervals, NoMemory>
    ensures { IfOk result (λ intervals. intervals ≡ spec.lying_between low.now high.now) }
{
    match (low, high) {
        (Literal::Date(low), Literal::Date(high)) => {
            lasting(alloc, Some(low.ms()), Some(high.ms()))
        }
        _ => Ok(Bound::World),
    }
}

// One interval for each instant among the literals.
fn instants(alloc: Global, literals: &[Literal]) -> Result<Intervals, NoMemory>
    ensures { IfOk result (λ intervals. intervals
        ≡ listed interval.is_void interval.joined (spec.instants_of literals.now)) }
{
    let mut list = Vec::new(alloc);
    'literals: for literal in literals {
        push_instant(&mut list, literal)?;
    }
    Ok(Bound::Listed(capped(alloc, list)?))
}

fn push_instant(into: &mut Vec<Interval>, literal: &Literal) -> Result<(), NoMemory>
    ensures { OnOk result (into.new.items
        ≡ into.old.items ++ kept interval.is_void (spec.instant_of literal.now)) }
{
    match literal {
        Literal::Date(at) => {
            let ms = at.ms();
            push_some(
                into,
                Interval {
                    low: Some(ms),
                    high: Some(ms),
                },
            )
        }
        Literal::Number(_) => Ok(()),
        Literal::Text(_) => Ok(()),
        Literal::Truth(_) => Ok(()),
    }
}
