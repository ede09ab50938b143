// The words of a case.
use gm_base::NoMemory;
use std::alloc::Global;

/// The first word, and what stands behind the blank that follows it.
pub fn split(case: &str) -> (&str, &str) {
    match case.split_once(' ') {
        Some(parts) => parts,
        None => (case, ""),
    }
}

/// The words of a list, as numbers; 0 for a word that is none.
pub fn numbers(alloc: Global, list: &str) -> Result<Vec<i64>, NoMemory> {
    let mut numbers = Vec::new(alloc);
    for word in list.split(' ') {
        match word.parse::<i64>() {
            Ok(number) => numbers.push(number)?,
            Err(_) => numbers.push(0)?,
        }
    }
    Ok(numbers)
}

/// A text of one's own.
pub fn text(alloc: Global, text: &str) -> Result<String, NoMemory> {
    Ok(String::from_str(alloc, text)?)
}
