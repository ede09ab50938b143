// Ranges of keys.
use gm_base::{Bytes, FeatureId, Items, SpanList};

/// A range of the keys of an index.
#[derive(Debug, Drop)]
pub enum Range {
    /// From the one code to the other, both included, and the level of their cells.
    Codes(u64, u64, u32),

    /// The same in a bin of time, which comes first.
    InBin(u16, u64, u64, u32),

    /// All codes of the bins from the one to the other, both included.
    Span(u16, u16),

    /// The lexicoded values from the first bytes, included, to the second, which are not. Without
    /// these it goes on to the last.
    Values(Bytes, Option<Bytes>),

    /// The key of an identifier.
    OneId(FeatureId),

    /// All keys of the index.
    All,
}

/// Ranges of the keys of one index.
pub type RangeList = Items<Range>;

/// The ranges of an index that a query reads, each of them in every shard.
#[derive(Debug, Drop)]
pub struct KeyRanges {
    pub shards: u8,
    pub ranges: RangeList,
}

/// The same as spans of keys: the low end of each is in it, the high end is not.
pub type ByteRangeList = SpanList;
