// Whether blocks have a row of a key, and where it stands or would stand.
ghost use Rattle.std.specs.Prelude.{◌≡◌, ◌≤◌, ◌<◌, [], length, IfOk, IfErr, slice_index_or};
ghost use Rattle.std.specs.List.{AllByRecursion};
ghost use Rattle.gm_table.specs.Blocks.{IsBlock, IsGap, IsPlace, IsRowAt, lists_of};
ghost use Rattle.gm_table.specs.Blocks.{rows_at, rows_of, rows_until};
ghost use Rattle.gm_table.specs.declared.blocks.block.Block.{Block};
ghost use Rattle.gm_table.specs.Sorted.{IsRising};

use crate::blocks::block::Block;
use crate::blocks::search::{Place, place_of};
use crate::end::End;
use gm_base::Bytes;

/// The place of the row of this key, or else the place where such a row would stand.
pub(crate) fn find_row(blocks: &[Block], key: &Bytes) -> Result<Place, Place>
    requires each { AllByRecursion IsBlock blocks.now }
    requires rising { IsRising (rows_of (lists_of blocks.now)) }
    ensures there { IfOk result (λ at. IsRowAt key.now at.block at.row blocks.now) }
    ensures place { IfErr result (λ at. IsPlace at.block at.row blocks.now) }
    ensures gap { IfErr result (λ at. IsGap key.now (rows_until at.block at.row blocks.now)
        (rows_at at.block at.row blocks.now)) }
{
    let at = ahead(blocks, place_of(blocks, &End::of_key(key)));
    if at.block >= blocks.len() {
        return Err(at);
    }
    let rows = blocks[at.block].rows.as_slice();
    if at.row >= rows.len() {
        return Err(at);
    }
    if *key == rows[at.row].key {
        return Ok(at);
    }
    Err(at)
}

// The same place, at the first row of the next block where it is the end of one.
fn ahead(blocks: &[Block], at: Place) -> Place
    requires each { AllByRecursion IsBlock blocks.now }
    requires place { IsPlace at.block at.row blocks.now }
    ensures place { IsPlace result.block result.row blocks.now }
    ensures until { rows_until result.block result.row blocks.now
        ≡ rows_until at.block at.row blocks.now }
    ensures from { rows_at result.block result.row blocks.now
        ≡ rows_at at.block at.row blocks.now }
    ensures end { (d : Block) → result.block < length blocks.now
        → length (slice_index_or blocks.now result.block d).rows ≤ result.row
        → rows_at result.block result.row blocks.now ≡ [] }
{
    if at.block >= blocks.len() {
        return at;
    }
    if at.row < blocks[at.block].rows.len() {
        return at;
    }
    let next = at.block + 1;
    if next >= blocks.len() {
        return at;
    }
    Place {
        block: next,
        row: 0,
    }
}
