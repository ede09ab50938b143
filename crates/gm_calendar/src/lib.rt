//! Instants, and the bins of a period that instants fall into: days, weeks, months and years of the
//! Gregorian calendar, counted from 1970-01-01T00:00:00Z.
#![tactic(auto)]

mod bin;
mod bin_place;
mod calendar;
mod extent;
mod instant;
mod laws;
mod period;
mod printer;
mod reader;

pub use bin::{Bin, bin_of, bin_span, bins_follow_time};
pub use instant::{FIRST_MS, Instant, LAST_MS};
pub use laws::{instants_are_spelled, instants_are_tested};
pub use period::{Period, last_bin, span_of};
pub use printer::{append_instant, print_instant, printed_instants_are_read};
pub use reader::read_instant;
