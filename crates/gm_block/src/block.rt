// Blocks.
ghost use Rattle.std.specs.Prelude.{◌≡◌, ◌≤◌, List, ◌++◌, ◌↔◌, IfOk};
ghost use Rattle.std.specs.Prelude.{IsTrue, MatchOption, codes};
ghost use Rattle.std.specs.Int.{to_be_bytes, w32};
ghost use Rattle.gm_block.specs.Block.{IsBlock, IsAbove, AreRows, block_bytes};
ghost use Rattle.gm_table.specs.Blocks.{most_rows};
ghost use Rattle.gm_table.specs.declared.row.Row.{Row};

use crate::parts::{put_number, put_part, read_number, read_row};
use gm_base::{Bytes, NoMemory};
use gm_table::{Row, RowList};
use std::alloc::Global;

const MARK: &[u8] = b"GMBK0001";

// How many rows a block has at most.
const ROW_LIMIT: u32 = 4096;

// How many bytes a row has at least: the lengths of its key and of its bytes.
const LEAST: usize = 8;

/// The bytes of these rows, each key and bytes of which are shorter than 2^32.
pub fn write_block(alloc: Global, rows: &RowList) -> Result<Bytes, NoMemory>
    requires { IsBlock rows.now }
    ensures { IfOk result (λ bytes. bytes ≡ block_bytes rows.now) }
{
    let mut text = Bytes::from_slice(alloc, MARK)?;
    put_number(&mut text, rows.len() as u32)?;
    for row in rows.as_slice() {
        put_part(&mut text, row.key.as_slice())?;
        put_part(&mut text, row.bytes.as_slice())?;
    }
    Ok(text)
}

/// The rows of a block with these bytes. None where there is no such block. Before memory is asked
/// for, the number of rows that the bytes claim is compared with how many there are.
pub fn read_block(alloc: Global, bytes: &[u8]) -> Result<Option<RowList>, NoMemory>
    ensures { IfOk result (λ found. MatchOption found
        ((rows : List Row) → IsBlock rows → bytes.now ≡ block_bytes rows → ⊥)
        (λ rows. IsBlock rows × (bytes.now ≡ block_bytes rows))) }
{
    let Some((count, rest)) = read_head(bytes) else {
        return Ok(None);
    };
    match read_rows(alloc, rest, count)? {
        Some(rows) => Ok(Some(RowList::from_vec(rows))),
        None => Ok(None),
    }
}

// The number of rows, and what follows. None where a block does not begin so.
fn read_head(bytes: &[u8]) -> Option<(u32, &[u8])>
    ensures { MatchOption result
        ((rows : List Row) → IsBlock rows → bytes.now ≡ block_bytes rows → ⊥)
        (λ it. (bytes.now ≡ codes "GMBK0001" ++ (to_be_bytes w32 it.0 ++ it.1.now)) × (1 ≤ it.0)
        × (it.0 ≤ most_rows)) }
{
    if bytes.len() < MARK.len() {
        return None;
    }
    let (mark, rest) = bytes.split_at(MARK.len());
    if mark != MARK {
        return None;
    }
    let Some((count, rest)) = read_number(rest) else {
        return None;
    };
    if !(1..=ROW_LIMIT).contains(&count) {
        return None;
    }
    Some((count, rest))
}

// So many rows, at most `ROW_LIMIT`. None where these are not the bytes of so many.
fn read_rows(alloc: Global, bytes: &[u8], count: u32) -> Result<Option<Vec<Row>>, NoMemory>
    ensures { IfOk result (λ found. MatchOption found
        ((rows : List Row) → AreRows count rows bytes.now → ⊥)
        (λ rows. AreRows count rows.items bytes.now)) }
{
    if bytes.len() / LEAST < count as usize {
        return Ok(None);
    }
    let mut rows = Vec::with_capacity(alloc, count as usize)?;
    let mut rest = bytes;
    'rows: for _ in 0..count {
        let Some((row, later)) = read_row(rest) else {
            return Ok(None);
        };
        if !is_above(&rows, row.key) {
            return Ok(None);
        }
        rows.push(owned(alloc, row.key, row.bytes)?)?;
        rest = later;
    }
    if !rest.is_empty() {
        return Ok(None);
    }
    Ok(Some(rows))
}

// A row of these bytes.
fn owned(alloc: Global, key: &[u8], bytes: &[u8]) -> Result<Row, NoMemory>
    ensures { IfOk result (λ row. row ≡ record { key = key.now; bytes = bytes.now }) }
{
    Ok(Row {
        key: Bytes::from_slice(alloc, key)?,
        bytes: Bytes::from_slice(alloc, bytes)?,
    })
}

// Whether the last of the rows is below the key.
fn is_above(rows: &[Row], key: &[u8]) -> bool
    ensures { IsTrue result ↔ IsAbove rows.now key.now }
{
    match rows.split_last() {
        Some((last, _)) => last.key.as_slice().cmp(&key).is_lt(),
        None => true,
    }
}
