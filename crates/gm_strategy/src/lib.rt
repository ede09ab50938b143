//! Which index is read for a filter, and which several for the branches of an OR.
#![tactic(auto)]

mod branches;
mod choice;
mod cost;
mod fault;
mod laws;
mod part;
mod strategy;

pub use fault::ChooseFault;
pub use laws::{choices_are_least, parts_are_served, parts_find_all};
pub use part::{Part, Plan};
pub use strategy::choose;
