// Cases of blocks, whose bytes are laid down here once more.
use crate::words;
use gm_base::{Bytes, NoMemory};
use gm_block::{read_block, write_block};
use std::alloc::Global;

pub fn answer(alloc: Global, word: &str, rest: &str) -> Result<String, NoMemory> {
    match word {
        "block" => named(alloc, rest),
        _ => numbered(alloc, rest.parse::<u32>().unwrap_or(0)),
    }
}

// A block with that mark and number, and these rows: `GMBK0001 2 a=1 b=2`. The word `+` is one byte
// more, and `-` a part whose length is that of no more than there is.
fn named(alloc: Global, case: &str) -> Result<String, NoMemory> {
    let (mark, rest) = words::split(case);
    let (number, rows) = words::split(rest);
    let mut bytes = Bytes::from_slice(alloc, mark.as_bytes())?;
    if let Ok(number) = number.parse::<u32>() {
        append_number(&mut bytes, number)?;
    }
    for row in rows.split(' ') {
        match row {
            "" => {}
            "+" => bytes.append(&[0])?,
            "-" => append_number(&mut bytes, u32::MAX)?,
            _ => {
                let (key, value) = row.split_once('=').unwrap_or((row, ""));
                append_row(&mut bytes, key.as_bytes(), value.as_bytes())?;
            }
        }
    }
    told(alloc, bytes.as_slice())
}

// A block of so many rows, whose keys are their numbers.
fn numbered(alloc: Global, number: u32) -> Result<String, NoMemory> {
    let mut bytes = Bytes::from_slice(alloc, b"GMBK0001")?;
    append_number(&mut bytes, number)?;
    for i in 0..number {
        let key = i.to_be_bytes();
        append_row(&mut bytes, &key, &[7; 32])?;
    }
    told(alloc, bytes.as_slice())
}

fn append_row(bytes: &mut Bytes, key: &[u8], value: &[u8]) -> Result<(), NoMemory> {
    append_part(bytes, key)?;
    append_part(bytes, value)
}

fn append_part(bytes: &mut Bytes, part: &[u8]) -> Result<(), NoMemory> {
    append_number(bytes, u32::try_from(part.len()).unwrap_or(0))?;
    bytes.append(part)
}

fn append_number(bytes: &mut Bytes, number: u32) -> Result<(), NoMemory> {
    bytes.append(&number.to_be_bytes())
}

// The number of rows that are read, the ends of the list, and whether they are written as before.
fn told(alloc: Global, bytes: &[u8]) -> Result<String, NoMemory> {
    let Some(rows) = read_block(alloc, bytes)? else {
        return words::text(alloc, "none");
    };
    let again = write_block(alloc, &rows)?;
    let same = again.as_slice() == bytes;
    let [first, .., last] = rows.as_slice() else {
        return Ok(format!(in alloc; "{} row, {same}", rows.len())?);
    };
    Ok(format!(in alloc;
        "{} rows, {:?} to {:?}, {same}",
        rows.len(),
        first.key.as_slice(),
        last.key.as_slice()
    )?)
}
