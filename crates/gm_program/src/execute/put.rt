// `put`
ghost use Rattle.std.specs.Prelude.{◌≡◌, ◌+◌, ◌-◌, length, Some, Option, nat_le, IfOk};
ghost use Rattle.std.specs.Option.{ForSome, option_copied};
ghost use Rattle.gm_engine_rows.specs.Change.{keys_at};
ghost use Rattle.gm_engine_rows.specs.State.{State, type_at};
ghost use Rattle.gm_feature.specs.Feature.{Fits};
ghost use Rattle.gm_script.specs.Order as order;
ghost use Rattle.gm_script.specs.Suits.{Suits};
ghost use Rattle.gm_program.specs.Serve.{Executes};
ghost use Rattle.gm_program.specs.Step.{put_step};
ghost use Rattle.gm_program.specs.Store.{Types, Holds, HasState};

use super::bound::bound;
use crate::store::Store;
use gm_base::{Code, NoMemory};
use gm_engine_rows::{
    batch_of, changes_are_counted, changes_keep_the_state, rows_are_of_features,
    rows_follow_a_change,
};
use gm_feature::Feature;
use gm_keys::keys_of;
use gm_script::Reply;
use gm_table::{Sorted, same_at_each_key};
use gm_types::FeatureType;
use std::alloc::Global;

/// A table has no more rows than this.
pub(super) const ROW_LIMIT: u64 = 2_000_000;

/// Binds an identifier of the type with this number to a feature.
pub(super) fn put<B: Sorted>(
    alloc: Global,
    type_number: u16,
    feature: Feature,
    store: &mut Store<B>,
    tally: &mut B::Tally,
) -> Result<Option<Reply>, NoMemory>
    requires kept { HasState store.old.types (B.rows store.old.table) }
    requires suits { Suits store.old.types (order.put type_number feature) }
    ensures { (s : State) → Holds s store.old.types (B.rows store.old.table)
        → IfOk result (λ reply. Executes (put_step type_number feature s) reply
        store.new.types (B.rows store.new.table) (B.Tally.number tally.old)
        (B.Tally.number tally.new)) }
{
    let of = &store.types.as_slice()[usize::from(type_number)];
    put_of(alloc, of, feature, &mut store.table, tally)
}

// Binds an identifier of this type to a feature.
fn put_of<B: Sorted>(
    alloc: Global,
    of: &FeatureType,
    feature: Feature,
    table: &mut B,
    tally: &mut B::Tally,
) -> Result<Option<Reply>, NoMemory>
    requires { Fits of.now feature }
    ensures { (s : State) (types : Types) → Holds s types (B.rows table.old)
        → type_at of.now.number s ≡ Some of.now
        → IfOk result (λ reply. Executes (put_step of.now.number feature s) reply
        types (B.rows table.new) (B.Tally.number tally.old) (B.Tally.number tally.new)) }
{
    rows_follow_a_change();
    rows_are_of_features();
    changes_are_counted();
    changes_keep_the_state();
    same_at_each_key();
    let old = bound(alloc, of, &feature.id, table, tally)?;
    let batch = batch_of(alloc, of, old.as_ref(), Some(&feature))?;
    if !has_room(alloc, of, old.as_ref(), table.count(), batch.puts.len())? {
        return Ok(Some(Reply::Refusal {
            code: Code::E19,
            row: None,
        }));
    }
    table.apply(alloc, &batch)?;
    Ok(Some(Reply::Stored {
        id: feature.id,
        replaced: old.is_some(),
    }))
}

// Whether there are few enough rows once those of the old feature are out and so many are put.
fn has_room(
    alloc: Global,
    of: &FeatureType,
    old: Option<&Feature>,
    rows: u64,
    puts: usize,
) -> Result<bool, NoMemory>
    requires { ForSome (option_copied old) (Fits of.now) }
    ensures { IfOk result (λ room. room
        ≡ nat_le (rows + puts) (2_000_000 + length (keys_at of.now (option_copied old.entry)))) }
{
    let most = u128::from(rows) + puts as u128;
    let limit = u128::from(ROW_LIMIT);
    if most <= limit {
        return Ok(true);
    }
    let Some(feature) = old else {
        return Ok(false);
    };
    let freed = keys_of(alloc, of, feature)?.len();
    Ok(most <= limit + freed as u128)
}
