// Changes of a table of blocks, whole or not at all.
ghost use Rattle.std.specs.Prelude.{◌≡◌, ◌≤◌, ℕ, List, None, if◌then◌else◌, length};
ghost use Rattle.std.specs.Prelude.{[], OnOk, OnErr, IsOk};
ghost use Rattle.gm_table.specs.Batch.{has_key, put_at};
ghost use Rattle.gm_table.specs.BlockTable.{blocks_of};
ghost use Rattle.gm_table.specs.Blocks.{rows_of};
ghost use Rattle.gm_table.specs.Changes.{undone_at};
ghost use Rattle.gm_table.specs.Sorted.{at_key};

use crate::Row;
use crate::blocks::table::BlockTable;
use gm_base::{Bytes, NoMemory};
use std::alloc::Global;

/// Puts these rows in, one after the other. Where there is no memory for one, those before it are
/// taken back.
pub(crate) fn put_rows(alloc: Global, table: &mut BlockTable, puts: &[Row]) -> Result<(), NoMemory>
    ensures ok { OnOk result ((key : List ℕ)
        → at_key key (rows_of (blocks_of table.new))
        ≡ put_at key puts.now (at_key key (rows_of (blocks_of table.old)))) }
    ensures err { OnErr result (rows_of (blocks_of table.new)
        ≡ rows_of (blocks_of table.old)) }
    ensures none { puts.now ≡ [] → IsOk result }
{
    let mut olds = Vec::with_capacity(alloc, puts.len())?;
    for put in puts {
        match table.put(alloc, put) {
            Ok(old) => olds.push_reserved(old),
            Err(error) => {
                take_back(alloc, table, puts, olds);
                return Err(error);
            }
        }
    }
    Ok(())
}

// Gives the keys of the rows that were put in what they had, the last first.
fn take_back(alloc: Global, table: &mut BlockTable, puts: &[Row], mut olds: Vec<Option<Bytes>>)
    requires { length olds.items ≤ length puts.now }
    ensures { (key : List ℕ)
        → at_key key (rows_of (blocks_of table.new))
        ≡ undone_at key puts.now olds.items
        (at_key key (rows_of (blocks_of table.old))) }
{
    while let Some(old) = olds.pop() {
        table.restore(alloc, &puts[olds.len()].key, old);
    }
}

/// Takes these keys out.
pub(crate) fn remove_keys(alloc: Global, table: &mut BlockTable, keys: &[Bytes])
    ensures { (key : List ℕ)
        → at_key key (rows_of (blocks_of table.new))
        ≡ (if has_key key keys.now then None
        else at_key key (rows_of (blocks_of table.old))) }
{
    for key in keys {
        table.remove(alloc, key);
    }
}
