//! Filters: their trees, which of them suit a type, and when they are true of a feature.
#![tactic(auto)]

mod comparison;
mod copying;
mod filter;
mod laws;
mod stored;
mod stored_comparison;
mod stored_meeting;
mod stored_tests;
mod suitability;
mod truth;
mod wildcards;

pub use copying::copy;
pub use filter::{Filter, FilterList, Literal, LiteralList, Op, TextList};
pub use laws::{
    ids_are_texts, like_begins, members_decide, null_passes_no_test, tests_compare, tests_meet,
    values_compare_in_order,
};
pub use stored::holds_stored;
pub use suitability::suits;
pub use truth::holds;
pub use wildcards::like;
