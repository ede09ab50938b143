// The parts of a plan.
use gm_base::Items;
use gm_filter::Filter;
use gm_types::IndexKind;

/// An index, what it costs to read it, and the filter that its features are to pass. The cost is
/// from 1, least, to 7, where the whole index is read.
#[derive(Debug, Drop)]
pub struct Part {
    pub kind: IndexKind,
    pub cost: u8,
    pub filter: Filter,
}

/// What is read, part by part.
pub type Plan = Items<Part>;
