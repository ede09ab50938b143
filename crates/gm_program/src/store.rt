// Feature types and the table of their rows.
ghost use Rattle.std.specs.Prelude.{◌≡◌, []};
ghost use Rattle.gm_program.specs.Store.{HasState};

use gm_table::Sorted;
use gm_types::TypeList;
use std::alloc::Global;

/// Feature types, in order of creation, and one sorted table with all rows of their features. It
/// keeps no second map: what stands in it can be had from the table alone.
#[derive(Debug, Drop)]
pub struct Store<B> {
    pub types: TypeList,
    pub table: B,
}

impl<B: Sorted> Store<B> {
    /// A store without types over a table without rows. It takes no memory.
    pub fn new(alloc: Global, table: B) -> Store<B>
        requires { B.rows table ≡ [] }
        ensures types { result.types ≡ [] }
        ensures table { result.table ≡ table }
        ensures kept { HasState result.types (B.rows result.table) }
    {
        Store {
            types: TypeList::new(alloc),
            table,
        }
    }
}
