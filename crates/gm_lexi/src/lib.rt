//! Values as bytes that stand in the order of the values, and the end of a range of such bytes.
#![tactic(auto)]

mod ends;
mod laws;
mod numbers;
mod texts;
mod truths;

pub use ends::{after, begins_where_within, fronts_decide, raised_as_told};
pub use laws::{big_bytes_in_order, no_value_is_a_front, numbers_as_places, values_in_order};
pub use numbers::{get_date, get_int, get_long, put_date, put_int, put_long};
pub use texts::{get_text, put_text};
pub use truths::{get_bool, put_bool};
