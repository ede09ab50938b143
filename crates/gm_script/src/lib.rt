//! The script language: a line read as a command, and the reply to it printed.
#![tactic(auto)]

mod bins;
mod command;
mod description;
mod fault;
mod laws;
mod line;
mod numbers;
mod part;
mod reading;
mod reply;
mod words;

pub use command::{Ask, Command};
pub use description::describe;
pub use fault::LineFault;
pub use laws::{
    creates_are_read, deletes_are_read, describes_are_read, lines_are_read, modifies_are_read,
    puts_are_read, questions_are_read, removes_are_read,
};
pub use part::part_line;
pub use reading::{LINE_LIMIT, read_line};
pub use reply::{Reply, print_reply};
