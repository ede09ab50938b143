// The one record of a row.
ghost use Rattle.std.specs.Prelude.{◌≡◌, IfOk, option_map, map};
ghost use Rattle.csv.specs.Records.{fields_of};
ghost use Rattle.gm_rows.specs.Reader.{record_of};

use csv::{ByteRecord, ErrorKind, ReaderBuilder};
use gm_base::NoMemory;
use std::alloc::Global;

// The record, if the row is exactly one. Where the reader fails, there was no memory: over a slice
// nothing else fails.
pub(crate) fn read_record(alloc: Global, row: &[u8]) -> Result<Option<ByteRecord>, NoMemory>
    ensures { IfOk result (λ found. option_map fields_of found ≡ record_of row.now) }
{
    let mut reader = ReaderBuilder::new()
        .has_headers(false)
        .from_reader(alloc, row);
    let mut record = ByteRecord::new(alloc);
    match reader.read_byte_record(&mut record) {
        Ok(true) => {}
        Ok(false) => return Ok(None),
        Err(_) => return Err(NoMemory),
    }
    let mut further = ByteRecord::new(alloc);
    match reader.read_byte_record(&mut further) {
        Ok(true) => Ok(None),
        Ok(false) => Ok(Some(record)),
        Err(e) => match e.kind() {
            ErrorKind::UnequalLengths { .. } => Ok(None),
            _ => Err(NoMemory),
        },
    }
}

/// The fields of a record.
pub(crate) fn fields_in<'a>(alloc: Global, row: &'a ByteRecord) -> Result<Vec<&'a [u8]>, NoMemory>
    ensures { IfOk result (λ fields. map (λ f. f.now) fields.items ≡ fields_of row.now) }
{
    let mut fields = Vec::with_capacity(alloc, row.len())?;
    'fields: for index in 0..row.len() {
        match row.get(index) {
            Some(field) => fields.push(field)?,
            None => return Ok(fields),
        }
    }
    Ok(fields)
}
