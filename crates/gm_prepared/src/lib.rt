//! Query geometries, prepared for tests against many others: their edges stand in bands of height.
#![tactic(auto)]

mod area;
mod band;
mod copy;
mod edge;
mod edge_test;
mod laws;
mod placing;
mod prepared;
mod standing;

pub use band::BAND_LIMIT;
pub use edge::{Edge, EdgeList};
pub use laws::lists_each_edge;
pub use prepared::Prepared;
