//! Trees of cells over codes.
//!
//! A tree cuts a space of two or three dimensions into cells, each level into halves along each
//! dimension. A node is a cell, and has one interval of codes. The reach of a node is the box that
//! its objects can touch. `ZTree` is the tree of the Z code (Morton 1966), whose codes are the
//! cells of its deepest level. `XzTree` is that of the XZ code (Böhm, Klump and Kriegel 1999), in
//! which each cell has a code of its own and reaches twice as far.
#![tactic(auto)]

mod cell;
mod laws;
mod node;
mod steps;
mod tree;
mod window;
mod xz;
mod z;

pub use laws::{
    object_is_in_reach, xz_codes_begin_with_path, xz_node_by_path, xz_own_code_is_place,
    z_cell_by_code, z_codes_spell_path, z_node_by_path,
};
pub use node::Node;
pub use steps::Steps;
pub use tree::Tree;
pub use window::{Node3, Window};
pub use xz::XzTree;
pub use z::ZTree;
