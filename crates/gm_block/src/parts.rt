// Parts of a block: a number, a text of bytes behind its length, a row.
ghost use Rattle.std.specs.Prelude.{◌≡◌, ◌<◌, ◌^◌, ◌++◌, ℕ, List, length, MatchOption, OnOk, OnErr};
ghost use Rattle.std.specs.Int.{to_be_bytes, w32};
ghost use Rattle.gm_block.specs.Parts.{part_bytes, row_bytes, IsShort};
ghost use Rattle.gm_table.specs.declared.row.Row.{Row};

use gm_base::{Bytes, NoMemory};
use gm_table::Row;

/// A row that is lent: its key, its bytes.
#[derive(Clone, Copy)]
pub(crate) struct Lent<'a> {
    pub(crate) key: &'a [u8],
    pub(crate) bytes: &'a [u8],
}

/// The number in the first four bytes, and what follows. None where there are fewer.
pub(crate) fn read_number(bytes: &[u8]) -> Option<(u32, &[u8])>
    ensures { MatchOption result (length bytes.now < 4) (λ it. bytes.now
        ≡ to_be_bytes w32 it.0 ++ it.1.now) }
{
    match bytes {
        [a, b, c, d, rest @ ..] => Some((u32::from_be_bytes([*a, *b, *c, *d]), rest)),
        _ => None,
    }
}

/// The first part, and what follows. None where no part stands there.
pub(crate) fn read_part(bytes: &[u8]) -> Option<(&[u8], &[u8])>
    ensures { MatchOption result
        ((part rest : List ℕ) → length part < 2 ^ 32 → bytes.now ≡ part_bytes part ++ rest → ⊥)
        (λ it. (bytes.now ≡ part_bytes it.0.now ++ it.1.now) × (length it.0.now < 2 ^ 32)) }
{
    let (count, rest) = read_number(bytes)?;
    let count = count as usize;
    if rest.len() < count {
        return None;
    }
    Some(rest.split_at(count))
}

/// The first row, and what follows. None where no row stands there.
pub(crate) fn read_row(bytes: &[u8]) -> Option<(Lent<'_>, &[u8])>
    ensures { MatchOption result
        ((row : Row) (rest : List ℕ) → IsShort row → bytes.now ≡ row_bytes row ++ rest → ⊥)
        (λ it. let row : Row = record { key = it.0.key.now; bytes = it.0.bytes.now } in
        (bytes.now ≡ row_bytes row ++ it.1.now) × IsShort row) }
{
    let (key, later) = read_part(bytes)?;
    let (part, rest) = read_part(later)?;
    Some((Lent { key, bytes: part }, rest))
}

/// Appends a number in four bytes.
pub(crate) fn put_number(text: &mut Bytes, number: u32) -> Result<(), NoMemory>
    ensures ok { OnOk result (text.new ≡ text.old ++ to_be_bytes w32 number) }
    ensures err { OnErr result (text.new ≡ text.old) }
{
    text.append(&number.to_be_bytes())
}

/// Appends a part: its length, and its bytes.
pub(crate) fn put_part(text: &mut Bytes, part: &[u8]) -> Result<(), NoMemory>
    requires { length part.now < 2 ^ 32 }
    ensures { OnOk result (text.new ≡ text.old ++ part_bytes part.now) }
{
    put_number(text, part.len() as u32)?;
    text.append(part)
}
