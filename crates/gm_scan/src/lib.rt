//! Features found by a filter in ranges of a table's keys, and their number.
#![tactic(auto)]

mod counted;
mod found;
mod found_rows;
mod identifiers;
mod kept;
mod laws;
mod literals;
mod scan;
mod target;
mod test;
mod texts;
mod trial;

pub use found_rows::{FoundRows, Keeping};
pub use laws::{ranges_apart_have_few_rows, rows_hold_features};
pub use scan::{count_one, scan_kept, scan_one};
