//! What every layer of gm speaks of: texts, bytes, lists, identifiers, spans of keys, the counter
//! of rows, the hash of the shards, and the codes of refused lines.
#![tactic(auto)]

mod bytes;
mod code;
mod counter;
mod front;
mod hash;
mod identifier;
mod items;
mod no_memory;
mod order;
mod prefix;
mod spans;
mod tally;
mod text;

pub use bytes::Bytes;
pub use code::Code;
pub use counter::Counter;
pub use front::{first_bytes, order_by_fronts};
pub use hash::fnv1a;
pub use identifier::{FeatureId, IdFault};
pub use items::Items;
pub use no_memory::NoMemory;
pub use prefix::Prefix;
pub use spans::SpanList;
pub use tally::Tally;
pub use text::Text;
