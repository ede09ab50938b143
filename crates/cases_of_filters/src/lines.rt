// Cases of ranges of keys, printed.
use gm_base::{Bytes, FeatureId, Items, NoMemory};
use gm_bounds::{KeyRanges, Range};
use gm_plan::{print_ranges, range_lines};
use std::alloc::Global;

/// So many ranges, of each kind in turn: how many lines and bytes they are in one text, and whether
/// these are the lines that stand alone.
pub fn answer(alloc: Global, count: u64) -> Result<String, NoMemory> {
    let mut list = Vec::new(alloc);
    for number in 0..count {
        list.push(range(alloc, number)?)?;
    }
    let ranges = KeyRanges {
        shards: 4,
        ranges: Items::from_vec(list),
    };
    let text = print_ranges(alloc, &ranges)?;
    let mut joined = String::new(alloc);
    for line in range_lines(alloc, &ranges)?.as_slice() {
        joined.push_str(line.as_str())?;
        joined.push_str("\n")?;
    }
    let same = joined.as_bytes() == text.as_bytes();
    let lines = text
        .as_bytes()
        .iter()
        .filter(|byte| **byte == b'\n')
        .count();
    let bytes = text.as_bytes().len();
    Ok(format!(in alloc; "{lines} lines of {bytes} bytes, {same}")?)
}

fn range(alloc: Global, number: u64) -> Result<Range, NoMemory> {
    let range = match number % 6 {
        0 => Range::Codes(number, number, 31),
        1 => Range::InBin(7, number, number, 21),
        2 => Range::Span(1, 9),
        3 => {
            let low = Bytes::from_slice(alloc, &number.to_be_bytes())?;
            Range::Values(low, None)
        }
        4 => match FeatureId::of(alloc, b"f1") {
            Ok(id) => Range::OneId(id),
            Err(_) => Range::All,
        },
        _ => Range::All,
    };
    Ok(range)
}
