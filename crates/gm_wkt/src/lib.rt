//! Well-Known Text of the six kinds of geometry, after OGC Simple Features: read and printed.
#![tactic(auto)]

mod fault;
mod halt;
mod keyword;
mod laws;
mod position;
mod printer;
mod reader;
mod spelled;

pub use fault::WktFault;
pub use laws::{
    geometry_is_spelled, one_geometry, points_are_plain, printed_is_spelled, spelled_on_a_line,
};
pub use printer::{append, append_point, print};
pub use reader::read;
