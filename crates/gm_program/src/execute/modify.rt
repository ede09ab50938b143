// `modify`
ghost use Rattle.std.specs.Prelude.{◌≡◌, ◌+◌, All, length, map, nat_le, Some, None, IfOk};
ghost use Rattle.gm_engine_rows.specs.Exchange.{IsExchange, old_keys};
ghost use Rattle.gm_engine_rows.specs.State.{State, type_at};
ghost use Rattle.gm_feature.specs.Feature.{Fits};
ghost use Rattle.gm_filter.specs.Suitability.{Suits as SuitsType};
ghost use Rattle.gm_filter.specs.Tree.{tree};
ghost use Rattle.gm_script.specs.Order as order;
ghost use Rattle.gm_script.specs.Order.{asked_by};
ghost use Rattle.gm_script.specs.Suits.{Suits};
ghost use Rattle.gm_program.specs.Matched.{MayTake};
ghost use Rattle.gm_program.specs.Serve.{Executes};
ghost use Rattle.gm_program.specs.Step.{given, modify_step, plain, with_value};
ghost use Rattle.gm_program.specs.Store.{Types, Holds, HasState, HasType};

use super::matched::{Matched, matching, plainly};
use super::put::ROW_LIMIT;
use crate::store::Store;
use gm_base::{Code, Items, NoMemory};
use gm_ecql::Change;
use gm_engine_rows::{
    Exchange, batch_of_all, exchanges_keep_the_state, rows_are_of_features, rows_follow_exchanges,
};
use gm_feature::{Feature, FeatureList, Value};
use gm_keys::keys_of;
use gm_script::{Ask, Reply};
use gm_table::{Sorted, same_at_each_key};
use gm_types::FeatureType;
use std::alloc::Global;

/// Gives an attribute a value in the features of which a filter is true, of the type with this
/// number.
pub(super) fn modify<B: Sorted>(
    alloc: Global,
    type_number: u16,
    change: Change,
    store: &mut Store<B>,
    tally: &mut B::Tally,
) -> Result<Option<Reply>, NoMemory>
    requires kept { HasState store.old.types (B.rows store.old.table) }
    requires suits { Suits store.old.types
        (order.modify type_number change.attribute change.value (tree change.filter)) }
    ensures { (s : State) → Holds s store.old.types (B.rows store.old.table)
        → IfOk result (λ reply. Executes
        (modify_step type_number change.attribute change.value (tree change.filter) s) reply
        store.new.types (B.rows store.new.table)
        (B.Tally.number tally.old) (B.Tally.number tally.new)) }
{
    let of = &store.types.as_slice()[usize::from(type_number)];
    let Change {
        attribute,
        value,
        filter,
    } = change;
    let ask = plainly(type_number, filter);
    modify_of(alloc, of, &ask, attribute, &value, &mut store.table, tally)
}

// Gives it to those of this type.
fn modify_of<B: Sorted>(
    alloc: Global,
    of: &FeatureType,
    ask: &Ask,
    attribute: u16,
    value: &Value,
    table: &mut B,
    tally: &mut B::Tally,
) -> Result<Option<Reply>, NoMemory>
    requires typed { HasType of.now (B.rows table.old) }
    requires plain { asked_by ask.now ≡ plain of.now.number (tree ask.now.filter) }
    requires suits { SuitsType of.now (tree ask.now.filter) }
    requires takes { MayTake of.now attribute value.now }
    ensures { (s : State) (types : Types) → Holds s types (B.rows table.old)
        → type_at of.now.number s ≡ Some of.now
        → IfOk result (λ reply. Executes
        (modify_step of.now.number attribute value.now (tree ask.now.filter) s) reply
        types (B.rows table.new) (B.Tally.number tally.old) (B.Tally.number tally.new)) }
{
    rows_follow_exchanges();
    rows_are_of_features();
    exchanges_keep_the_state();
    same_at_each_key();
    match matching(alloc, of, ask, table, tally)? {
        Matched::Refused(code) => Ok(Some(Reply::Refusal { code, row: None })),
        Matched::Features(features, _) => {
            let count = features.len() as u64;
            let exchanges = changes(alloc, of, features, attribute, value)?;
            let batch = batch_of_all(alloc, of, exchanges.as_slice())?;
            let room = has_room(
                alloc,
                of,
                exchanges.as_slice(),
                table.count(),
                batch.puts.len(),
            )?;
            if !room {
                return Ok(Some(Reply::Refusal {
                    code: Code::E19,
                    row: None,
                }));
            }
            table.apply(alloc, &batch)?;
            Ok(Some(Reply::Modified(count)))
        }
    }
}

// Features as they give their places to those with the value.
fn changes(
    alloc: Global,
    of: &FeatureType,
    features: FeatureList,
    attribute: u16,
    value: &Value,
) -> Result<Items<Exchange>, NoMemory>
    requires fit { All (Fits of.now) features }
    requires takes { MayTake of.now attribute value.now }
    ensures { IfOk result (λ exchanges. exchanges ≡ map (given attribute value.now) features) }
{
    let mut exchanges = Vec::with_capacity(alloc, features.len())?;
    'features: for old in features.into_vec() {
        let new = Some(with_value(alloc, of, &old, attribute, value)?);
        exchanges.push(Exchange { old, new })?;
    }
    Ok(Items::from_vec(exchanges))
}

// The feature with another value in that place.
fn with_value(
    alloc: Global,
    of: &FeatureType,
    feature: &Feature,
    attribute: u16,
    value: &Value,
) -> Result<Feature, NoMemory>
    requires fits { Fits of.now feature.now }
    requires takes { MayTake of.now attribute value.now }
    ensures { IfOk result (λ other. other ≡ with_value attribute value.now feature.now) }
{
    let Feature { id, values } = feature.copy(alloc)?;
    let mut values = values.into_vec();
    values[usize::from(attribute)] = value.copy(alloc)?;
    Ok(Feature {
        id,
        values: Items::from_vec(values),
    })
}

// Whether there are few enough rows once those of the old features are out and so many are put.
fn has_room(
    alloc: Global,
    of: &FeatureType,
    exchanges: &[Exchange],
    rows: u64,
    puts: usize,
) -> Result<bool, NoMemory>
    requires { All (IsExchange of.now) exchanges.now }
    ensures { IfOk result (λ room. room
        ≡ nat_le (rows + puts) (2_000_000 + length (old_keys of.now exchanges.now))) }
{
    let mut over = (u128::from(rows) + puts as u128).saturating_sub(u128::from(ROW_LIMIT));
    if over == 0 {
        return Ok(true);
    }
    'exchanges: for exchange in exchanges {
        let freed = keys_of(alloc, of, &exchange.old)?.len();
        over = over.saturating_sub(freed as u128);
    }
    Ok(over == 0)
}
