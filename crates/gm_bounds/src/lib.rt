//! Bounds of a filter: where features can be of which it is true.
#![tactic(auto)]

mod applicability;
mod bound;
mod byte_range;
mod closed_box;
mod forms;
mod identifiers;
mod interval;
mod laws;
mod lists;
mod member;
mod one_value;
mod ranges;
mod space;
mod time;
mod values;

pub use applicability::applies;
pub use bound::{
    Bound, BoxList, Boxes, ByteBounds, ByteRangeItems, IdList, IdSet, IntervalList, Intervals,
};
pub use byte_range::ByteRange;
pub use identifiers::ids;
pub use interval::Interval;
pub use laws::{
    byte_ranges_are_few, dates_are_in_intervals, forms_and_more_are_in_ranges, forms_are_in_ranges,
    geometries_are_in_boxes, identifiers_are_bytes, identifiers_are_listed,
    joined_ranges_hold_both, one_value_is_as_told,
};
pub use lists::LIST_LIMIT;
pub use one_value::{are_of_one_value, is_of_one_value};
pub use ranges::{ByteRangeList, KeyRanges, Range, RangeList};
pub use space::boxes;
pub use time::intervals;
pub use values::attr_bounds;
