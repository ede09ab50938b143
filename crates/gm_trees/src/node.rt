// Nodes of a tree.

/// A node of a tree: its level, which is 0 at the root, its first code, and the index of its cell
/// in each dimension, under 2^level. In two dimensions t is 0.
#[derive(Clone, Copy, Debug, PartialEq, Eq)]
pub struct Node {
    pub level: u32,
    pub first: u64,
    pub x: u32,
    pub y: u32,
    pub t: u32,
}
