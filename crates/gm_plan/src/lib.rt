//! The ranges of keys that a query by an index reads, as spans of keys and as lines that explain
//! them.
#![tactic(auto)]

mod bins;
mod bounds;
mod key_ranges;
mod laws;
mod lines;
mod merging;
mod plane;
mod space;
mod spans;
mod windows;

pub use key_ranges::ranges;
pub use laws::{
    attr_keys_are_inside, id_keys_are_inside, keys_are_inside, keys_inside_are_of_the_index,
    ranges_are_few, spans_are_apart, value_ranges_are_few, xz2_keys_are_inside,
    xz3_keys_are_inside, z2_keys_are_inside, z3_keys_are_inside,
};
pub use lines::{print_ranges, range_lines};
pub use spans::byte_ranges;
