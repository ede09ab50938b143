// `delete`
ghost use Rattle.std.specs.Prelude.{◌≡◌, Some, IfOk};
ghost use Rattle.gm_engine_rows.specs.State.{State, type_at};
ghost use Rattle.gm_script.specs.Order as order;
ghost use Rattle.gm_script.specs.Suits.{Suits};
ghost use Rattle.gm_program.specs.Serve.{Executes};
ghost use Rattle.gm_program.specs.Step.{delete_step};
ghost use Rattle.gm_program.specs.Store.{Types, Holds, HasState};

use super::bound::bound;
use crate::store::Store;
use gm_base::{Code, FeatureId, NoMemory};
use gm_engine_rows::{
    batch_of, changes_are_counted, changes_keep_the_state, rows_are_of_features,
    rows_follow_a_change,
};
use gm_script::Reply;
use gm_table::{Sorted, same_at_each_key};
use gm_types::FeatureType;
use std::alloc::Global;

/// Unbinds an identifier of the type with this number.
pub(super) fn delete<B: Sorted>(
    alloc: Global,
    type_number: u16,
    id: FeatureId,
    store: &mut Store<B>,
    tally: &mut B::Tally,
) -> Result<Option<Reply>, NoMemory>
    requires kept { HasState store.old.types (B.rows store.old.table) }
    requires suits { Suits store.old.types (order.delete type_number id) }
    ensures { (s : State) → Holds s store.old.types (B.rows store.old.table)
        → IfOk result (λ reply. Executes (delete_step type_number id s) reply
        store.new.types (B.rows store.new.table) (B.Tally.number tally.old)
        (B.Tally.number tally.new)) }
{
    let of = &store.types.as_slice()[usize::from(type_number)];
    delete_of(alloc, of, id, &mut store.table, tally)
}

// Unbinds an identifier of this type.
fn delete_of<B: Sorted>(
    alloc: Global,
    of: &FeatureType,
    id: FeatureId,
    table: &mut B,
    tally: &mut B::Tally,
) -> Result<Option<Reply>, NoMemory>
    ensures { (s : State) (types : Types) → Holds s types (B.rows table.old)
        → type_at of.now.number s ≡ Some of.now
        → IfOk result (λ reply. Executes (delete_step of.now.number id s) reply
        types (B.rows table.new) (B.Tally.number tally.old) (B.Tally.number tally.new)) }
{
    rows_follow_a_change();
    rows_are_of_features();
    changes_are_counted();
    changes_keep_the_state();
    same_at_each_key();
    let Some(old) = bound(alloc, of, &id, table, tally)? else {
        return Ok(Some(Reply::Refusal {
            code: Code::E13,
            row: None,
        }));
    };
    let batch = batch_of(alloc, of, Some(&old), None)?;
    table.apply(alloc, &batch)?;
    Ok(Some(Reply::Deleted(id)))
}
