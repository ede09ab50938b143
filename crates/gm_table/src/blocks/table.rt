// A table whose rows stand in blocks.
ghost use Rattle.std.specs.Prelude.{◌≡◌, ◌<◌, ℕ, List, [], ◌∷◌, length, slice_index_or};
ghost use Rattle.std.specs.Prelude.{OnOk, OnErr, IfOk, None, if◌then◌else◌};
ghost use Rattle.std.specs.Ordering.{nat_cmp};
ghost use Rattle.std.specs.Cmp.Lexicographic.{slice_cmp};
ghost use Rattle.std.specs.BTreeMap.{is_at};
ghost use Rattle.gm_table.specs.Batch.{put_at};
ghost use Rattle.gm_table.specs.Blocks.{AreBlocks, AreBlocks-prop, AreInOrder, AreInOrder-prop};
ghost use Rattle.gm_table.specs.Blocks.{IsSized, lists_of, rows_of};
ghost use Rattle.gm_table.specs.Changes.{restored_at};
ghost use Rattle.gm_table.specs.Sorted.{at_key};

use crate::blocks::batches::{put_rows, remove_keys};
use crate::blocks::block::Block;
use crate::blocks::change::{insert_row, remove_row, replace_row};
use crate::blocks::cursor::{scan_part, scan_range};
use crate::blocks::find::find_row;
use crate::blocks::lookup::bytes_at;
use crate::end::End;
use crate::{Batch, Row, RowList, Sorted, Visit};
use gm_base::{Bytes, NoMemory, SpanList, Tally};
use std::alloc::Global;
use std::ops::Range;

/// A table whose rows stand in blocks: sorted lists, in the order of their keys. A block is cut in
/// two at 128 rows; the contracts allow it 1 to 4,096.
#[derive(Debug, Drop)]
pub struct BlockTable {
    list: Vec<Block>,
    count: u64,
    ghost each: { AreBlocks list.items } by { AreBlocks-prop list.items },
    ghost rising: { AreInOrder list.items } by { AreInOrder-prop list.items },
    ghost counted: { count ≡ length (rows_of (lists_of list.items)) },
}

impl BlockTable {
    ghost use Rattle.gm_table.specs.BlockTable.{blocks_of};

    /// A table with no row. It takes no memory.
    pub fn new(alloc: Global) -> BlockTable
        ensures rows { ⟦<BlockTable as Sorted>⟧.rows result ≡ [] }
        ensures none { blocks_of result ≡ [] }
    {
        BlockTable {
            list: Vec::new(alloc),
            count: 0,
        }
    }

    /// How many blocks there are. The rows of all of them, one block after the other, are those of
    /// the table. No memory.
    pub fn blocks(&self) -> usize
        ensures number { result ≡ length (blocks_of self.now) }
        ensures joined { ⟦<BlockTable as Sorted>⟧.rows self.now ≡ rows_of (blocks_of self.now) }
    {
        self.list.len()
    }

    /// The block of that number, from 0 on. No memory.
    pub fn block(&self, i: usize) -> &RowList
        requires { i < length (blocks_of self.now) }
        ensures rows { result.now ≡ slice_index_or (blocks_of self.now) i result.now }
        ensures sized { IsSized result.now }
    {
        &self.list[i].rows
    }

    /// Puts a copy of a row in, and answers the bytes that its key had.
    pub(crate) fn put(&mut self, alloc: Global, put: &Row) -> Result<Option<Bytes>, NoMemory>
        ensures ok { OnOk result ((key : List ℕ)
            → at_key key (rows_of (blocks_of self.new)) ≡ put_at
            key (put.now ∷ []) (at_key key (rows_of (blocks_of self.old)))) }
        ensures had { IfOk result (λ old. old
            ≡ at_key put.now.key (rows_of (blocks_of self.old))) }
        ensures err { OnErr result (rows_of (blocks_of self.new)
            ≡ rows_of (blocks_of self.old)) }
    {
        match find_row(&self.list, &put.key) {
            Ok(at) => {
                let bytes = put.bytes.copy(alloc)?;
                Ok(Some(replace_row(alloc, &mut self.list, at, bytes)))
            }
            Err(at) => {
                // The number of rows is a u64, and there is no room for one more.
                if self.count == u64::MAX {
                    return Err(NoMemory);
                }
                let row = put.copy(alloc)?;
                insert_row(alloc, &mut self.list, at, row)?;
                self.count += 1;
                Ok(None)
            }
        }
    }

    /// Gives a key that the table has what it had before a put.
    pub(crate) fn restore(&mut self, alloc: Global, key: &Bytes, old: Option<Bytes>)
        ensures { (other : List ℕ)
            → at_key other (rows_of (blocks_of self.new))
            ≡ restored_at other key.now old
            (at_key other (rows_of (blocks_of self.old))) }
    {
        if let Ok(at) = find_row(&self.list, key) {
            match old {
                None => {
                    remove_row(alloc, &mut self.list, at);
                    self.count -= 1;
                }
                Some(bytes) => {
                    let _now = replace_row(alloc, &mut self.list, at, bytes);
                }
            }
        }
    }

    /// Takes the row of a key out, if there is one.
    pub(crate) fn remove(&mut self, alloc: Global, key: &Bytes)
        ensures { (other : List ℕ)
            → at_key other (rows_of (blocks_of self.new))
            ≡ (if is_at (slice_cmp nat_cmp other) key.now then None
            else at_key other (rows_of (blocks_of self.old))) }
    {
        if let Ok(at) = find_row(&self.list, key) {
            remove_row(alloc, &mut self.list, at);
            self.count -= 1;
        }
    }
}

impl Sorted for BlockTable {
    type Tally = Tally;

    ghost rows = { λ table. rows_of (lists_of table.list.items) };

    ghost rising = { λ table. table.rising };

    fn get(&self, key: &Bytes, tally: &mut Tally) -> Option<&[u8]> {
        match bytes_at(&self.list, key) {
            Some(bytes) => {
                tally.add(1);
                Some(bytes)
            }
            None => None,
        }
    }

    fn scan_between<V: Visit>(
        &self,
        alloc: Global,
        low: &[u8],
        high: &[u8],
        visit: &mut V,
        tally: &mut Tally,
    ) -> Result<(), NoMemory> {
        let low = End::of(low);
        let high = End::of(high);
        scan_range(alloc, &self.list, &low, &high, visit, tally)
    }

    fn scan_spans<V: Visit>(
        &self,
        alloc: Global,
        spans: &SpanList,
        part: Range<usize>,
        visit: &mut V,
        tally: &mut Tally,
    ) -> Result<(), NoMemory> {
        scan_part(alloc, &self.list, spans, part, visit, tally)
    }

    fn apply(&mut self, alloc: Global, batch: &Batch) -> Result<(), NoMemory> {
        put_rows(alloc, self, batch.puts.as_slice())?;
        remove_keys(alloc, self, batch.removes.as_slice());
        Ok(())
    }

    fn count(&self) -> u64 {
        self.count
    }
}
