// `remove`
ghost use Rattle.std.specs.Prelude.{◌≡◌, map, Some, None, IfOk};
ghost use Rattle.gm_engine_rows.specs.State.{State, type_at};
ghost use Rattle.gm_filter.specs.Suitability.{Suits as SuitsType};
ghost use Rattle.gm_filter.specs.Tree.{tree};
ghost use Rattle.gm_script.specs.Order as order;
ghost use Rattle.gm_script.specs.Order.{asked_by};
ghost use Rattle.gm_script.specs.Suits.{Suits};
ghost use Rattle.gm_program.specs.Serve.{Executes};
ghost use Rattle.gm_program.specs.Step.{plain, gone, remove_step};
ghost use Rattle.gm_program.specs.Store.{Types, Holds, HasState, HasType};

use super::matched::{Matched, matching, plainly};
use crate::store::Store;
use gm_base::{Items, NoMemory};
use gm_engine_rows::{
    Exchange, batch_of_all, exchanges_keep_the_state, rows_are_of_features, rows_follow_exchanges,
};
use gm_feature::FeatureList;
use gm_filter::Filter;
use gm_script::{Ask, Reply};
use gm_table::{Sorted, same_at_each_key};
use gm_types::FeatureType;
use std::alloc::Global;

/// Unbinds the features of which a filter is true, of the type with this number.
pub(super) fn remove<B: Sorted>(
    alloc: Global,
    type_number: u16,
    filter: Filter,
    store: &mut Store<B>,
    tally: &mut B::Tally,
) -> Result<Option<Reply>, NoMemory>
    requires kept { HasState store.old.types (B.rows store.old.table) }
    requires suits { Suits store.old.types (order.remove type_number (tree filter)) }
    ensures { (s : State) → Holds s store.old.types (B.rows store.old.table)
        → IfOk result (λ reply. Executes (remove_step type_number (tree filter) s) reply
        store.new.types (B.rows store.new.table)
        (B.Tally.number tally.old) (B.Tally.number tally.new)) }
{
    let of = &store.types.as_slice()[usize::from(type_number)];
    remove_of(
        alloc,
        of,
        &plainly(type_number, filter),
        &mut store.table,
        tally,
    )
}

// Unbinds those of this type.
fn remove_of<B: Sorted>(
    alloc: Global,
    of: &FeatureType,
    ask: &Ask,
    table: &mut B,
    tally: &mut B::Tally,
) -> Result<Option<Reply>, NoMemory>
    requires typed { HasType of.now (B.rows table.old) }
    requires plain { asked_by ask.now ≡ plain of.now.number (tree ask.now.filter) }
    requires suits { SuitsType of.now (tree ask.now.filter) }
    ensures { (s : State) (types : Types) → Holds s types (B.rows table.old)
        → type_at of.now.number s ≡ Some of.now
        → IfOk result (λ reply. Executes (remove_step of.now.number (tree ask.now.filter) s) reply
        types (B.rows table.new) (B.Tally.number tally.old) (B.Tally.number tally.new)) }
{
    rows_follow_exchanges();
    rows_are_of_features();
    exchanges_keep_the_state();
    same_at_each_key();
    match matching(alloc, of, ask, table, tally)? {
        Matched::Refused(code) => Ok(Some(Reply::Refusal { code, row: None })),
        Matched::Features(features, _) => {
            let count = features.len() as u64;
            let exchanges = removals(alloc, features)?;
            let batch = batch_of_all(alloc, of, exchanges.as_slice())?;
            table.apply(alloc, &batch)?;
            Ok(Some(Reply::Removed(count)))
        }
    }
}

// Features as they go.
fn removals(alloc: Global, features: FeatureList) -> Result<Items<Exchange>, NoMemory>
    ensures { IfOk result (λ exchanges. exchanges ≡ map gone features) }
{
    let mut exchanges = Vec::with_capacity(alloc, features.len())?;
    'features: for old in features.into_vec() {
        exchanges.push(Exchange { old, new: None })?;
    }
    Ok(Items::from_vec(exchanges))
}
