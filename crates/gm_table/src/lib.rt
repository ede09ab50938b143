//! A sorted table of byte keys: what it is, whichever way it is kept, changes of it, one that is
//! kept in std's ordered map, and one that is kept in blocks.
#![tactic(auto)]

mod batch;
mod blocks;
mod changes;
mod cursor;
mod end;
mod laws;
mod map_table;
mod replaying;
mod row;
mod sorted;
mod visit;

pub use batch::Batch;
pub use blocks::BlockTable;
pub use laws::{applied_as_told, rows_of_a_map, rows_of_a_range, same_at_each_key};
pub use map_table::MapTable;
pub use replaying::{BatchList, replay};
pub use row::{KeyList, Row, RowList};
pub use sorted::Sorted;
pub use visit::Visit;
