// Cases of features and their bytes.
use crate::{rows, words};
use gm_base::NoMemory;
use gm_feature::{from_bytes, to_bytes};
use gm_rows::{print_row, read_row};
use gm_types::FeatureType;
use std::alloc::Global;

/// The bytes of the feature of a row.
pub fn bytes_of_row(alloc: Global, of: &FeatureType, row: &[u8]) -> Result<String, NoMemory> {
    match read_row(alloc, of, row) {
        Err(fault) => rows::refused(alloc, fault),
        Ok(feature) => {
            let bytes = to_bytes(alloc, of, &feature)?;
            words::digits(alloc, bytes.as_slice())
        }
    }
}

/// The row of the feature with these bytes, and whether it has them.
pub fn read(alloc: Global, of: &FeatureType, bytes: &[u8]) -> Result<String, NoMemory> {
    match from_bytes(alloc, of, bytes)? {
        None => words::text(alloc, "none"),
        Some(feature) => {
            let row = print_row(alloc, of, &feature)?;
            let again = to_bytes(alloc, of, &feature)?;
            let same = again.as_slice() == bytes;
            Ok(format!(in alloc; "{} same {same}", row.as_str())?)
        }
    }
}
