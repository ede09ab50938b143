//! Fixed-point numbers, points, boxes and geometries, after OGC Simple Features.
#![tactic(auto)]

mod extent;
mod geometry;
mod laws;
mod number;
mod point;
mod printer;
mod validity;

pub use extent::{bounds, high_corner, low_corner};
pub use geometry::{Areas, Geometry, Lines, Points, Rings};
pub use laws::{extents_are_least, has_number_bytes, numbers_are_spelled, reads_back};
pub use number::{NUMBER_LIMIT, NumberFault, read_fixed};
pub use point::{Box2, Point};
pub use printer::{append_fixed, print_fixed};
pub use validity::{GeomFault, POINT_LIMIT, check, is_point_in_world};
