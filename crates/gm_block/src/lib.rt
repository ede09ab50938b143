//! The bytes of a block: rows of a table in a file.
#![tactic(auto)]

mod block;
mod laws;
mod parts;

pub use block::{read_block, write_block};
pub use laws::bytes_tell_blocks_apart;
