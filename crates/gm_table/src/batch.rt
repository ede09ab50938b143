// A change of a table.
use crate::{KeyList, RowList};

/// A change of a table, which it makes whole or not at all: the keys that are taken out, and the
/// rows that are put in. A row takes the place of one with its key. No two of all these keys are
/// equal.
#[derive(Debug, Drop)]
pub struct Batch {
    pub removes: KeyList,
    pub puts: RowList,
}
