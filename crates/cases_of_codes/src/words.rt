// The words of a case.
use gm_base::NoMemory;
use gm_trees::{Node3, Window};
use std::alloc::Global;

/// The first word, and what stands behind the blank that follows it.
pub fn split(case: &str) -> (&str, &str) {
    match case.split_once(' ') {
        Some(parts) => parts,
        None => (case, ""),
    }
}

/// The words of a list, as numbers; those that are none are left out.
pub fn numbers(alloc: Global, list: &str) -> Result<Vec<u32>, NoMemory> {
    let mut numbers = Vec::new(alloc);
    for word in list.split(' ') {
        if let Ok(number) = word.parse::<u32>() {
            numbers.push(number)?;
        }
    }
    Ok(numbers)
}

/// The first and the last number of each word, as `5-6`; other words are left out.
pub fn spans(alloc: Global, list: &str) -> Result<Vec<(u64, u64)>, NoMemory> {
    let mut spans = Vec::new(alloc);
    for word in list.split(' ') {
        if let Some((low, high)) = word.split_once('-') {
            if let (Ok(low), Ok(high)) = (low.parse::<u64>(), high.parse::<u64>()) {
                spans.push((low, high))?;
            }
        }
    }
    Ok(spans)
}

/// The windows of the words, as `1,2,3-4,5,6`; other words are left out.
pub fn windows(alloc: Global, list: &str) -> Result<Vec<Window>, NoMemory> {
    let mut windows = Vec::new(alloc);
    for word in list.split(' ') {
        if let Some((low, high)) = word.split_once('-') {
            windows.push(Window {
                low: cell(low),
                high: cell(high),
            })?;
        }
    }
    Ok(windows)
}

// A cell, as `1,2,3`; an index that is left out is 0.
fn cell(word: &str) -> Node3 {
    let mut indexes = word
        .split(',')
        .map(|index| index.parse::<u32>().unwrap_or(0));
    let x = indexes.next().unwrap_or(0);
    let y = indexes.next().unwrap_or(0);
    let t = indexes.next().unwrap_or(0);
    Node3 { x, y, t }
}

/// A text of one's own.
pub fn text(alloc: Global, text: &str) -> Result<String, NoMemory> {
    Ok(String::from_str(alloc, text)?)
}
