// The words of a case.
use gm_base::NoMemory;
use std::alloc::Global;

/// What stands before the first of these characters, and what stands behind it.
pub fn split(case: &str, at: char) -> (&str, &str) {
    match case.split_once(at) {
        Some(parts) => parts,
        None => (case, ""),
    }
}

/// A text of one's own.
pub fn text(alloc: Global, text: &str) -> Result<String, Halt> {
    match String::from_str(alloc, text) {
        Ok(text) => Ok(text),
        Err(_) => Err(Halt::NoMemory),
    }
}

/// More of a text.
pub fn push(text: &mut String, part: &str) -> Result<(), Halt> {
    match text.push_str(part) {
        Ok(()) => Ok(()),
        Err(_) => Err(Halt::NoMemory),
    }
}

pub fn told(alloc: Global, truth: bool) -> Result<String, Halt> {
    text(alloc, if truth { "true" } else { "false" })
}

/// Why a case has no answer.
#[derive(Clone, Copy, Debug, PartialEq, Eq)]
pub enum Halt {
    /// It is not written as cases are.
    Form,

    NoMemory,
}

impl From<NoMemory> for Halt {
    fn from(_: NoMemory) -> Self {
        Halt::NoMemory
    }
}
