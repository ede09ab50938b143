// A piece of a level.
use gm_trees::Node;

/// What stands of a node at a level.
#[derive(Clone, Copy, Debug, PartialEq, Eq)]
pub(crate) enum Piece {
    /// Codes that are in each level set from here on, the first and the last.
    Codes(u64, u64),
    /// A partial node, and the windows that its reach overlaps, as bits.
    Partial(Node, u64),
}
