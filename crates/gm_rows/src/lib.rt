//! Rows of features: a record of CSV, after RFC 4180, read and printed.
#![tactic(auto)]

mod cut;
mod fault;
mod field;
mod laws;
mod printer;
mod reader;
mod record;
mod stored;

pub use fault::RowFault;
pub use laws::{printed_records_are_read, printed_rows_are_read, read_rows_fit};
pub use printer::{append_row, print_field, print_row};
pub use reader::read_row;
pub use stored::append_stored_row;
