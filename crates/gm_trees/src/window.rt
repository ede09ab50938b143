// Boxes of cells.

/// A cell of a tree's deepest level, by its index in each dimension. In two dimensions t is not
/// looked at.
#[derive(Clone, Copy, Debug, PartialEq, Eq)]
pub struct Node3 {
    pub x: u32,
    pub y: u32,
    pub t: u32,
}

/// A closed box of cells of a tree's deepest level.
#[derive(Clone, Copy, Debug, PartialEq, Eq)]
pub struct Window {
    pub low: Node3,
    pub high: Node3,
}
