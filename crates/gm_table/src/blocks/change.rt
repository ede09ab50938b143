// Blocks with one row more, with one row fewer, and with other bytes in a row.
ghost use Rattle.std.specs.Prelude.{◌≡◌, ◌≤◌, ◌<◌, ◌+◌, ℕ, List, [], ◌∷◌, ◌++◌, length};
ghost use Rattle.std.specs.Prelude.{OnOk, OnErr, IfOk, slice_index_or, suc, true, false};
ghost use Rattle.std.specs.List.{AllByRecursion};
ghost use Rattle.gm_table.specs.Blocks.{HasRoom, IsBlock, IsCut, IsPlace, IsRowAt, lists_of};
ghost use Rattle.gm_table.specs.Blocks.{pair_of, rows_at, rows_of, rows_until};
ghost use Rattle.gm_table.specs.declared.blocks.block.Block.{Block};

use crate::Row;
use crate::blocks::block::Block;
use crate::blocks::search::Place;
use gm_base::{Bytes, NoMemory};
use std::alloc::Global;

// A block of so many rows is cut in two before another row is put in. Contracts allow it 4,096.
const CUT_AT: usize = 128;

// How many rows the first of the two keeps.
const HALF: usize = CUT_AT / 2;

// A block of no more rows is dropped when one of them is taken out.
const FEWEST: usize = 1;

/// Puts a row in at a place.
pub(crate) fn insert_row(
    alloc: Global,
    list: &mut Vec<Block>,
    at: Place,
    row: Row,
) -> Result<(), NoMemory>
    requires each { AllByRecursion IsBlock list.old.items }
    requires place { IsPlace at.block at.row list.old.items }
    ensures ok { OnOk result (rows_of (lists_of list.new.items)
        ≡ rows_until at.block at.row list.old.items
        ++ pair_of row ∷ rows_at at.block at.row list.old.items) }
    ensures err { OnErr result (rows_of (lists_of list.new.items)
        ≡ rows_of (lists_of list.old.items)) }
    ensures each { AllByRecursion IsBlock list.new.items }
{
    if begins_block(list, at) {
        return push_block(alloc, list, row);
    }
    let roomy = make_room(alloc, list, at)?;
    list[roomy.block].insert(alloc, roomy.row, row)
}

// Whether a row that is put in here begins a block: it is the first, or the last and there is no
// room in the last block.
fn begins_block(blocks: &[Block], at: Place) -> bool
    requires { IsPlace at.block at.row blocks.now }
    ensures end { result ≡ true → rows_at at.block at.row blocks.now ≡ [] }
    ensures some { result ≡ false → 0 < length blocks.now }
{
    if at.block >= blocks.len() {
        return true;
    }
    if blocks.len() - at.block > 1 {
        return false;
    }
    let count = blocks[at.block].rows.len();
    at.row >= count && count >= CUT_AT
}

// Puts a row in behind all others, in a block of its own.
fn push_block(alloc: Global, list: &mut Vec<Block>, row: Row) -> Result<(), NoMemory>
    requires each { AllByRecursion IsBlock list.old.items }
    ensures ok { OnOk result (rows_of (lists_of list.new.items)
        ≡ rows_of (lists_of list.old.items) ++ pair_of row ∷ []) }
    ensures err { OnErr result (list.new.items ≡ list.old.items) }
    ensures each { AllByRecursion IsBlock list.new.items }
{
    let mut rows = Vec::new(alloc);
    rows.push(row)?;
    list.push(Block::of(rows))?;
    Ok(())
}

// The same place in a block that has room for another row, which is cut in two where it has not.
fn make_room(alloc: Global, list: &mut Vec<Block>, at: Place) -> Result<Place, NoMemory>
    requires each { AllByRecursion IsBlock list.old.items }
    requires place { IsPlace at.block at.row list.old.items }
    requires some { 0 < length list.old.items }
    ensures room { IfOk result (λ to. HasRoom to.block to.row list.new.items) }
    ensures until { IfOk result (λ to. rows_until to.block to.row list.new.items
        ≡ rows_until at.block at.row list.old.items) }
    ensures from { IfOk result (λ to. rows_at to.block to.row list.new.items
        ≡ rows_at at.block at.row list.old.items) }
    ensures err { OnErr result (rows_of (lists_of list.new.items)
        ≡ rows_of (lists_of list.old.items)) }
    ensures each { AllByRecursion IsBlock list.new.items }
{
    if list[at.block].rows.len() < CUT_AT {
        return Ok(at);
    }
    cut(alloc, list, at.block)?;
    if at.row <= HALF {
        return Ok(at);
    }
    Ok(Place {
        block: at.block + 1,
        row: at.row - HALF,
    })
}

// Cuts a block in two.
fn cut(alloc: Global, list: &mut Vec<Block>, n: usize) -> Result<(), NoMemory>
    requires each { AllByRecursion IsBlock list.old.items }
    requires within { n < length list.old.items }
    requires many { (d : Block) → CUT_AT ≤ length (slice_index_or list.old.items n d).rows }
    ensures ok { OnOk result (IsCut n HALF list.old.items list.new.items) }
    ensures err { OnErr result (rows_of (lists_of list.new.items)
        ≡ rows_of (lists_of list.old.items)) }
    ensures each { AllByRecursion IsBlock list.new.items }
{
    list.reserve(1)?;
    let later = list[n].split(alloc, HALF)?;
    let _ = list.insert(n + 1, later);
    Ok(())
}

/// Gives a row other bytes, and answers those that it had.
pub(crate) fn replace_row(alloc: Global, list: &mut Vec<Block>, at: Place, bytes: Bytes) -> Bytes
    requires each { AllByRecursion IsBlock list.old.items }
    requires within { at.block < length list.old.items }
    requires there { (d : Block) → at.row < length (slice_index_or list.old.items at.block d).rows }
    ensures rows { (key : List ℕ) → IsRowAt key at.block at.row list.old.items
        → rows_of (lists_of list.new.items) ≡ rows_until at.block at.row list.old.items
        ++ (key, bytes) ∷ rows_at at.block (suc at.row) list.old.items }
    ensures had { (key : List ℕ) → IsRowAt key at.block at.row list.old.items
        → rows_at at.block at.row list.old.items
        ≡ (key, result) ∷ rows_at at.block (suc at.row) list.old.items }
    ensures each { AllByRecursion IsBlock list.new.items }
{
    list[at.block].replace(alloc, at.row, bytes)
}

/// Takes a row out, and its block with it where that has no other.
pub(crate) fn remove_row(alloc: Global, list: &mut Vec<Block>, at: Place)
    requires each { AllByRecursion IsBlock list.old.items }
    requires within { at.block < length list.old.items }
    requires there { (d : Block) → at.row < length (slice_index_or list.old.items at.block d).rows }
    ensures rows { rows_of (lists_of list.new.items)
        ≡ rows_until at.block at.row list.old.items
        ++ rows_at at.block (suc at.row) list.old.items }
    ensures each { AllByRecursion IsBlock list.new.items }
{
    if list[at.block].rows.len() <= FEWEST {
        let _emptied = list.remove(at.block);
        return;
    }
    list[at.block].remove(alloc, at.row);
}
