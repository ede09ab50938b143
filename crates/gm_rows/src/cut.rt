// Rows that are cut at their commas.
ghost use Rattle.std.specs.Prelude.{◌≡◌, [], map, IfOk};
ghost use Rattle.std.specs.List.{list_all};
ghost use Rattle.gm_rows.specs.Reader as spec;

use crate::printer::begins_with_mark;
use gm_base::NoMemory;
use std::alloc::Global;

fn are_plain(row: &[u8]) -> bool
    ensures { result ≡ list_all spec.is_plain_byte row.now }
{
    row.iter()
        .all(|byte| *byte != b'"' && *byte != b'\r' && *byte != b'\n')
}

/// Whether a row has a byte, no double quote, 0x0D or 0x0A, and no U+FEFF at its head.
pub(crate) fn is_plain(row: &[u8]) -> bool
    ensures { result ≡ spec.is_plain row.now }
{
    let has_bytes = !row.is_empty();
    let unmarked = !begins_with_mark(row);
    has_bytes && unmarked && are_plain(row)
}

/// What stands between the commas.
#[tactic(auto, unfolding(crate::specs::Reader::cut_from))]
pub(crate) fn cut_row<'a>(alloc: Global, row: &'a [u8]) -> Result<Vec<&'a [u8]>, NoMemory>
    ensures { IfOk result (λ fields. map (λ f. f.now) fields.items ≡ spec.cut_from [] [] row.now) }
{
    let mut fields = Vec::new(alloc);
    let mut start = 0;
    'bytes: for (index, byte) in row.iter().enumerate() {
        if *byte == b',' {
            fields.push(&row[start..index])?;
            start = index + 1;
        }
    }
    fields.push(&row[start..])?;
    Ok(fields)
}
