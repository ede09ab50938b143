//! Tables whose rows stand in blocks.
mod batches;
pub(crate) mod block;
mod change;
mod cursor;
mod find;
mod lookup;
mod search;
mod table;
mod walk;

pub use table::BlockTable;
