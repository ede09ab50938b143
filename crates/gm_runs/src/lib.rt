//! Sets of numbers, kept as their maximal runs.
//!
//! A run is a closed interval of numbers. The maximal runs of a set are the rising list of
//! intervals that hold exactly the set, with at least one number left out between neighbours. Each
//! set has one such list.
#![tactic(auto)]

mod laws;
mod list;
mod runs;

pub use laws::{numbers_stand_in_runs, runs_rise, same_numbers_same_runs, tests_have_maximal_runs};
pub use runs::Runs;
