// A row, and lists of rows and of keys.
ghost use Rattle.std.specs.Prelude.{◌≡◌, IfOk};

use gm_base::{Bytes, Items, NoMemory};
use std::alloc::Global;

/// A row of a table: a key and its bytes.
#[derive(Debug, Drop, PartialEq, Eq)]
pub struct Row {
    pub key: Bytes,
    pub bytes: Bytes,
}

impl Row {
    pub(crate) fn copy(&self, alloc: Global) -> Result<Row, NoMemory>
        ensures { IfOk result (λ copy. copy ≡ self.now) }
    {
        Ok(Row {
            key: self.key.copy(alloc)?,
            bytes: self.bytes.copy(alloc)?,
        })
    }
}

/// Rows, seen as their list.
pub type RowList = Items<Row>;

/// Keys, seen as their list.
pub type KeyList = Items<Bytes>;
