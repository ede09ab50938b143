//! ECQL, the text language of filters and of changes: read, with its faults in their order, and
//! printed. It is a part of GeoTools' Extended Common Query Language, which comes from the CQL of
//! the OGC's Catalogue Service; docs/LANGUAGE.md says which.
#![tactic(auto)]

mod bytes;
mod change;
mod fault;
mod geometry;
mod halt;
mod judging;
mod keyword;
mod laws;
mod limits;
mod numeric;
mod parser;
mod parts;
mod printer;
mod quoted;
mod reader;
mod scanner;
mod symbols;
mod test;
mod test_reader;
mod text;
mod token;

pub use change::Change;
pub use fault::FilterFault;
pub use laws::{
    change_outcomes_are_answers, one_change, one_filter, one_list, outcomes_are_answers,
    printed_filters_are_read, printed_filters_are_spelled,
};
pub use limits::{DEPTH_LIMIT, JOIN_LIMIT, TOKEN_LIMIT};
pub use printer::print;
pub use reader::{read, read_change};
