//! The program: the top call `run`, which serves a script from a source to a sink over a sorted
//! table.
#![tactic(auto)]

mod execute;
mod generator;
mod laws;
mod number;
mod options;
mod pending;
mod quiet;
mod script;
mod serve;
mod setting;
mod status;
mod stop;
mod store;
mod words;

pub use generator::generated;
pub use laws::{faulty_words_have_no_options, loading_is_left_out, words_have_options};
pub use script::run;
pub use status::Status;
pub use store::Store;
