// Where keys are in blocks of rows.
ghost use Rattle.std.specs.Prelude.{◌≡◌, ◌≤◌, length, take, drop, true, false};
ghost use Rattle.std.specs.Ordering.{nat_cmp, is_le};
ghost use Rattle.std.specs.Cmp.Lexicographic.{slice_cmp};
ghost use Rattle.std.specs.List.{AllByRecursion, AllWithin};
ghost use Rattle.gm_table.specs.Blocks.{IsBlock, IsPlace, first_key, lists_of, pairs_of};
ghost use Rattle.gm_table.specs.Blocks.{rows_of, rows_at, rows_until};
ghost use Rattle.gm_table.specs.Cursor.{rows_below, rows_after};
ghost use Rattle.gm_table.specs.Sorted.{IsRising};

use crate::Row;
use crate::blocks::block::Block;
use crate::end::End;

/// A row of a block, or the end of it.
#[derive(Clone, Copy, Debug)]
pub(crate) struct Place {
    pub(crate) block: usize,
    pub(crate) row: usize,
}

/// The place before which all keys are below the given one, and from which on none is.
pub(crate) fn place_of(blocks: &[Block], key: &End<'_>) -> Place
    requires each { AllByRecursion IsBlock blocks.now }
    requires rising { IsRising (rows_of (lists_of blocks.now)) }
    ensures place { IsPlace result.block result.row blocks.now }
    ensures before { rows_until result.block result.row blocks.now
        ≡ rows_below key.now (rows_of (lists_of blocks.now)) }
    ensures from { rows_at result.block result.row blocks.now
        ≡ rows_after key.now (rows_of (lists_of blocks.now)) }
{
    place_past(blocks, 0, key)
}

/// The place of a key at which, or before which, the first blocks, so many, are known to begin.
pub(crate) fn place_past(blocks: &[Block], first: usize, key: &End<'_>) -> Place
    requires each { AllByRecursion IsBlock blocks.now }
    requires rising { IsRising (rows_of (lists_of blocks.now)) }
    requires within { first ≤ length blocks.now }
    requires begun { AllWithin (λ block. is_le (slice_cmp nat_cmp (first_key block.rows) key.now)
        ≡ true) blocks.now 0 first }
    ensures place { IsPlace result.block result.row blocks.now }
    ensures before { rows_until result.block result.row blocks.now
        ≡ rows_below key.now (rows_of (lists_of blocks.now)) }
    ensures from { rows_at result.block result.row blocks.now
        ≡ rows_after key.now (rows_of (lists_of blocks.now)) }
{
    let begun = count_begun(blocks, first, key);
    if begun == 0 {
        return Place { block: 0, row: 0 };
    }
    let block = begun - 1;
    Place {
        block,
        row: place_in(blocks[block].rows.as_slice(), key),
    }
}

// How many of the blocks begin at the key or before it. The first, so many, are known to.
fn count_begun(blocks: &[Block], first: usize, key: &End<'_>) -> usize
    requires each { AllByRecursion IsBlock blocks.now }
    requires rising { IsRising (rows_of (lists_of blocks.now)) }
    requires within { first ≤ length blocks.now }
    requires begun { AllWithin (λ block. is_le (slice_cmp nat_cmp (first_key block.rows) key.now)
        ≡ true) blocks.now 0 first }
    ensures bound { result ≤ length blocks.now }
    ensures begun { AllWithin (λ block. is_le (slice_cmp nat_cmp (first_key block.rows) key.now)
        ≡ true) blocks.now 0 result }
    ensures others { AllWithin (λ block. is_le (slice_cmp nat_cmp (first_key block.rows) key.now)
        ≡ false) blocks.now result (length blocks.now) }
{
    let mut low = first;
    let mut high = blocks.len();
    'halves: while low < high {
        let middle = low + (high - low) / 2;
        if blocks[middle].begins_by(key) {
            low = middle + 1;
        } else {
            high = middle;
        }
    }
    low
}

/// How many of the rows are before the key.
pub(crate) fn place_in(rows: &[Row], key: &End<'_>) -> usize
    requires { IsRising (pairs_of rows.now) }
    ensures bound { result ≤ length rows.now }
    ensures before { pairs_of (take result rows.now) ≡ rows_below key.now (pairs_of rows.now) }
    ensures from { pairs_of (drop result rows.now) ≡ rows_after key.now (pairs_of rows.now) }
{
    rows.partition_point(|row| !key.is_reached(&row.key))
}
