// Cases of rows.
use crate::words;
use gm_base::NoMemory;
use gm_feature::{from_bytes, to_bytes};
use gm_rows::{RowFault, print_field, print_row, read_row};
use gm_types::FeatureType;
use std::alloc::Global;

/// Why a row is none.
pub fn refused(alloc: Global, fault: RowFault) -> Result<String, NoMemory> {
    match fault {
        RowFault::Count => words::text(alloc, "field count"),
        RowFault::Value => words::text(alloc, "unreadable value"),
        RowFault::Geometry => words::text(alloc, "geometry"),
        RowFault::Date => words::text(alloc, "date outside the bins"),
        RowFault::Id => words::text(alloc, "identifier"),
        RowFault::NoMemory => Err(NoMemory),
    }
}

/// The row that is printed of what is read, and the field of its last value in brackets.
pub fn read(alloc: Global, of: &FeatureType, row: &[u8]) -> Result<String, NoMemory> {
    match read_row(alloc, of, row) {
        Err(fault) => refused(alloc, fault),
        Ok(feature) => {
            let text = print_row(alloc, of, &feature)?;
            match feature.values.as_slice().last() {
                None => words::text(alloc, text.as_str()),
                Some(value) => {
                    let field = print_field(alloc, value)?;
                    Ok(format!(in alloc; "{} [{}]", text.as_str(), field.as_str())?)
                }
            }
        }
    }
}

/// A row with a text of so many bytes and a line of so many points: whether it is printed as it
/// was, how long its bytes are, and whether these are read as a feature.
pub fn large(alloc: Global, of: &FeatureType, rest: &str) -> Result<String, NoMemory> {
    let (length, count) = words::split(rest);
    let length = length.parse::<u32>().unwrap_or(0);
    let row = large_row(alloc, length, count.parse::<u32>().unwrap_or(0))?;
    let row = row.as_str().as_bytes();
    match read_row(alloc, of, row) {
        Err(fault) => refused(alloc, fault),
        Ok(feature) => {
            let same = print_row(alloc, of, &feature)?.as_bytes() == row;
            let bytes = to_bytes(alloc, of, &feature)?;
            let again = from_bytes(alloc, of, bytes.as_slice())?.is_some();
            let (whole, kept) = (row.len(), bytes.len());
            Ok(format!(in alloc; "{whole} bytes same {same}, {kept} bytes read {again}")?)
        }
    }
}

fn large_row(alloc: Global, length: u32, count: u32) -> Result<String, NoMemory> {
    let mut row = String::from_str(alloc, "f1,")?;
    for _ in 0..length {
        row.push('a')?;
    }
    row.push_str(",\"LINESTRING (0 0")?;
    for _ in 1..count {
        row.push_str(", 1 1")?;
    }
    row.push_str(")\"")?;
    Ok(row)
}
