// Commands on the list of types and the table of rows.
ghost use Rattle.std.specs.Prelude.{◌≡◌, IfOk};
ghost use Rattle.gm_engine_rows.specs.State.{State};
ghost use Rattle.gm_script.specs.Order.{order_of};
ghost use Rattle.gm_script.specs.Suits.{Suits};
ghost use Rattle.gm_program.specs.Refusals.{IsRefusal};
ghost use Rattle.gm_program.specs.Serve.{Executes};
ghost use Rattle.gm_program.specs.Step.{step};
ghost use Rattle.gm_program.specs.Store.{Holds, HasState};

mod bound;
mod counted;
mod create;
mod delete;
mod describe;
mod explain;
mod found;
mod in_order;
mod matched;
mod modify;
mod parts;
mod plan;
mod printed;
mod put;
mod query;
mod remove;
mod rows;
mod spans;

use crate::setting::Setting;
use crate::store::Store;
use create::create;
use delete::delete;
use describe::describe;
use explain::explain;
use gm_base::NoMemory;
use gm_script::{Command, Reply};
use gm_table::Sorted;
use modify::modify;
use put::put;
use query::{count, query};
use remove::remove;
use std::alloc::Global;

/// Does a command as the plain map of features says. One that is refused leaves the types and the
/// rows as they are.
pub(crate) fn execute<B: Sorted>(
    alloc: Global,
    _setting: Setting,
    command: Command,
    store: &mut Store<B>,
    tally: &mut B::Tally,
) -> Result<Option<Reply>, NoMemory>
    requires kept { HasState store.old.types (B.rows store.old.table) }
    requires suits { Suits store.old.types (order_of command) }
    ensures done { (s : State) → Holds s store.old.types (B.rows store.old.table)
        → IfOk result (λ reply. Executes (step _setting s (order_of command)) reply
        store.new.types (B.rows store.new.table) (B.Tally.number tally.old)
        (B.Tally.number tally.new)) }
    ensures refused { IfOk result (λ reply. IsRefusal reply
        → (store.new.types ≡ store.old.types) × (B.rows store.new.table ≡ B.rows store.old.table)) }
{
    match command {
        Command::Nothing => Ok(None),
        Command::Create(of) => create(alloc, of, &mut store.types),
        Command::Put(type_number, feature) => put(alloc, type_number, feature, store, tally),
        Command::Delete(type_number, id) => delete(alloc, type_number, id, store, tally),
        Command::Remove(type_number, filter) => remove(alloc, type_number, filter, store, tally),
        Command::Modify(type_number, change) => modify(alloc, type_number, change, store, tally),
        Command::Query(ask) => query(alloc, &ask, store, tally),
        Command::Count(ask) => count(alloc, &ask, store, tally),
        Command::Explain(ask) => explain(alloc, &ask, &store.types),
        Command::Describe(type_number) => describe(alloc, type_number, &store.types),
    }
}
