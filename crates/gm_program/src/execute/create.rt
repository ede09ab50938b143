// `create`
ghost use Rattle.std.specs.Prelude.{◌<◌, ◌^◌, ℕ, IfOk};
ghost use Rattle.gm_engine_rows.specs.State.{State};
ghost use Rattle.gm_script.specs.Order as order;
ghost use Rattle.gm_script.specs.Suits.{Suits};
ghost use Rattle.gm_table.specs.Sorted.{Rows};
ghost use Rattle.gm_program.specs.Serve.{Executes};
ghost use Rattle.gm_program.specs.Step.{create_step};
ghost use Rattle.gm_program.specs.Store.{Holds};

use gm_base::NoMemory;
use gm_engine_rows::a_new_type_has_no_rows;
use gm_script::Reply;
use gm_types::{FeatureType, TypeList};
use std::alloc::Global;

/// Takes a further type.
pub(super) fn create(
    alloc: Global,
    of: FeatureType,
    types: &mut TypeList,
) -> Result<Option<Reply>, NoMemory>
    requires { Suits types.old (order.create of) }
    ensures { (s : State) (rows : Rows) (tally : ℕ) → tally < 2 ^ 64 → Holds s types.old rows
        → IfOk result (λ reply. Executes (create_step of s) reply types.new rows tally tally) }
{
    a_new_type_has_no_rows();
    let name = of.name().copy(alloc)?;
    types.push(of)?;
    // The types are numbered by their places, and their names differ.
    let _types = types.as_slice();
    Ok(Some(Reply::Created(name)))
}
