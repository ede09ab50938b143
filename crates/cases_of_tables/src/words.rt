// The words of a case.
use gm_base::NoMemory;
use std::alloc::Global;

/// The first word, and what stands behind the blank that follows it.
pub fn split(case: &str) -> (&str, &str) {
    match case.split_once(' ') {
        Some(parts) => parts,
        None => (case, ""),
    }
}

/// A text of one's own.
pub fn text(alloc: Global, text: &str) -> Result<String, NoMemory> {
    Ok(String::from_str(alloc, text)?)
}
