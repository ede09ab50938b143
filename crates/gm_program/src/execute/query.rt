// `query` and `count`
ghost use Rattle.std.specs.Prelude.{IfOk};
ghost use Rattle.gm_engine_rows.specs.State.{State};
ghost use Rattle.gm_script.specs.Order.{asked_by};
ghost use Rattle.gm_script.specs.Suits.{IsQuestion};
ghost use Rattle.gm_program.specs.Serve.{Executes};
ghost use Rattle.gm_program.specs.Step.{query_step, count_step};
ghost use Rattle.gm_program.specs.Store.{Holds, HasState};

use super::counted::{Counted, count_plan};
use super::plan::{Planned, plan_for};
use super::printed::{Printed, print_found};
use super::rows::read_rows;
use crate::store::Store;
use gm_base::NoMemory;
use gm_scan::Keeping;
use gm_script::{Ask, Reply};
use gm_strategy::{parts_are_served, parts_find_all};
use gm_table::Sorted;
use std::alloc::Global;

/// Finds the features of which a filter is true.
pub(super) fn query<B: Sorted>(
    alloc: Global,
    ask: &Ask,
    store: &Store<B>,
    tally: &mut B::Tally,
) -> Result<Option<Reply>, NoMemory>
    requires kept { HasState store.now.types (B.rows store.now.table) }
    requires suits { IsQuestion store.now.types (asked_by ask.now) }
    ensures { (s : State) → Holds s store.now.types (B.rows store.now.table)
        → IfOk result (λ reply. Executes (query_step (asked_by ask.now) s) reply
        store.now.types (B.rows store.now.table) (B.Tally.number tally.old)
        (B.Tally.number tally.new)) }
{
    parts_are_served();
    parts_find_all();
    let of = &store.types.as_slice()[usize::from(ask.number)];
    match plan_for(alloc, of, ask)? {
        Planned::Refused(code) => Ok(Some(Reply::Refusal { code, row: None })),
        Planned::Parts(plan, target) => {
            let read = read_rows(
                alloc,
                of,
                plan.as_slice(),
                target,
                Keeping::Rows,
                &store.table,
                tally,
            )?;
            let printed = print_found(alloc, of, &read.rows)?;
            let examined = read.examined;
            let Printed { rows, matched } = printed;
            Ok(Some(Reply::Found {
                rows,
                matched,
                examined,
            }))
        }
    }
}

/// Counts the features of which a filter is true.
pub(super) fn count<B: Sorted>(
    alloc: Global,
    ask: &Ask,
    store: &Store<B>,
    tally: &mut B::Tally,
) -> Result<Option<Reply>, NoMemory>
    requires kept { HasState store.now.types (B.rows store.now.table) }
    requires suits { IsQuestion store.now.types (asked_by ask.now) }
    ensures { (s : State) → Holds s store.now.types (B.rows store.now.table)
        → IfOk result (λ reply. Executes (count_step (asked_by ask.now) s) reply
        store.now.types (B.rows store.now.table) (B.Tally.number tally.old)
        (B.Tally.number tally.new)) }
{
    parts_are_served();
    parts_find_all();
    let of = &store.types.as_slice()[usize::from(ask.number)];
    match plan_for(alloc, of, ask)? {
        Planned::Refused(code) => Ok(Some(Reply::Refusal { code, row: None })),
        Planned::Parts(plan, target) => {
            let counted = count_plan(alloc, of, plan.as_slice(), target, &store.table, tally)?;
            let Counted { matched, examined } = counted;
            Ok(Some(Reply::Counted { matched, examined }))
        }
    }
}
