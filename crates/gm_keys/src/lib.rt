//! The keys of features in the indexes of their type: how they are made, how they are laid out, and
//! which of them lie between two bounds.
#![tactic(auto)]

mod cell;
mod form;
mod key;
mod laws;
mod layout;
mod whereabouts;

pub use key::{id_key, key_of, keys_of};
pub use laws::{
    keys_are_laid_out, keys_are_missing_where_values_are, keys_between_codes, keys_between_values,
    keys_of_one_identifier, keys_tell_features_apart, keys_within_begin_alike,
    prefixes_tell_indexes_apart, shards_are_few,
};
pub use layout::id_of;
