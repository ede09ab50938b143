// `describe`
ghost use Rattle.std.specs.Prelude.{◌<◌, ◌^◌, ℕ, length, IfOk};
ghost use Rattle.gm_engine_rows.specs.State.{State};
ghost use Rattle.gm_table.specs.Sorted.{Rows};
ghost use Rattle.gm_program.specs.Serve.{Executes};
ghost use Rattle.gm_program.specs.Step.{describe_step};
ghost use Rattle.gm_program.specs.Store.{Holds};

use gm_base::NoMemory;
use gm_script::{Reply, describe as lines_of};
use gm_types::TypeList;
use std::alloc::Global;

/// Says what the type with this number is.
pub(super) fn describe(
    alloc: Global,
    type_number: u16,
    types: &TypeList,
) -> Result<Option<Reply>, NoMemory>
    requires { type_number < length types.now }
    ensures { (s : State) (rows : Rows) (tally : ℕ) → tally < 2 ^ 64 → Holds s types.now rows
        → IfOk result (λ reply. Executes
        (describe_step type_number s) reply types.now rows tally tally) }
{
    let lines = lines_of(alloc, &types.as_slice()[usize::from(type_number)])?;
    Ok(Some(Reply::Described(lines)))
}
