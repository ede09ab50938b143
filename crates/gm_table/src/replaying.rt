// Changes of a table, one after the other.
ghost use Rattle.std.specs.Prelude.{◌≡◌, ◌≤◌, ◌++◌, ℕ, List, All, IsTrue};
ghost use Rattle.std.specs.Prelude.{OnOk, OnErr, length, map, take};
ghost use Rattle.gm_table.specs.Batch.{are_distinct};
ghost use Rattle.gm_table.specs.Replaying.{replayed_at};
ghost use Rattle.gm_table.specs.Row.{key_of};
ghost use Rattle.gm_table.specs.Sorted.{at_key};

use crate::{Batch, Sorted};
use gm_base::{Items, NoMemory};
use std::alloc::Global;

/// Changes of a table, in the order in which they are made.
pub type BatchList = Items<Batch>;

/// Makes these changes in order. After `NoMemory` some first ones of them are made.
pub fn replay<S: Sorted>(alloc: Global, table: &mut S, batches: &BatchList) -> Result<(), NoMemory>
    requires { All (λ batch. IsTrue
        (are_distinct (batch.removes ++ map key_of batch.puts))) batches.now }
    ensures ok { OnOk result ((key : List ℕ) → at_key key (S.rows table.new)
        ≡ replayed_at key batches.now (at_key key (S.rows table.old))) }
    ensures err { OnErr result ((made : ℕ) × (made ≤ length batches.now)
        × ((key : List ℕ) → at_key key (S.rows table.new)
        ≡ replayed_at key (take made batches.now) (at_key key (S.rows table.old)))) }
{
    for batch in batches.as_slice() {
        table.apply(alloc, batch)?;
    }
    Ok(())
}
