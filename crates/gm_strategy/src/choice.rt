// The index that is chosen for a filter.
ghost use Rattle.std.specs.Prelude.{◌≡◌, IfOk, nat_lt};
ghost use Rattle.gm_filter.specs.Suitability.{Suits};
ghost use Rattle.gm_filter.specs.Tree.{tree};
ghost use Rattle.gm_strategy.specs.Choice as spec;

use crate::cost::{WHOLE, cost_of, cost_of_ids};
use gm_base::NoMemory;
use gm_filter::Filter;
use gm_types::{FeatureType, IndexKind, enabled_indexes};
use std::alloc::Global;

/// An index and its cost.
#[derive(Clone, Copy, Debug)]
pub(crate) struct Choice {
    pub kind: IndexKind,
    pub cost: u8,
}

impl Choice {
    /// The index need not be read as a whole.
    pub(crate) fn is_bounded(self) -> bool
        ensures { result ≡ nat_lt self.cost 7 }
    {
        self.cost < WHOLE
    }
}

/// The first index of least cost.
pub(crate) fn choice_for(
    alloc: Global,
    of: &FeatureType,
    filter: &Filter,
) -> Result<Choice, NoMemory>
    requires { Suits of.now (tree filter.now) }
    ensures { IfOk result (λ choice. choice ≡ spec.choice_of of.now (tree filter.now)) }
{
    let enabled = enabled_indexes(alloc, of)?;
    let ids_cost = cost_of_ids(alloc, filter)?;
    let mut held = Choice {
        kind: IndexKind::Id,
        cost: ids_cost,
    };
    'kinds: for kind in enabled.as_slice() {
        let cost = match *kind {
            IndexKind::Id => Some(ids_cost),
            other => cost_of(alloc, of, other, filter)?,
        };
        held = cheaper(held, *kind, cost);
    }
    Ok(held)
}

fn cheaper(held: Choice, kind: IndexKind, cost: Option<u8>) -> Choice
    ensures { result ≡ spec.cheaper held kind cost }
{
    match cost {
        Some(cost) if cost < held.cost => Choice { kind, cost },
        _ => held,
    }
}
