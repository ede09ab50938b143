//! Curves through a space of two or three dimensions: the Z code of a cell, the XZ code of an
//! object that covers several, and the cell in which a point of a span lies.
#![tactic(auto)]

mod curve;
mod scale;
mod spreading;
mod xz;

pub use curve::{Curve, code_by_bits, codes_are_one, codes_rise, coordinates_are_one};
pub use scale::{normal, normal_rises};
pub use xz::{Xz, sequences_are_listed, sequences_by_bits};
