// A block of rows.
ghost use Rattle.std.specs.Prelude.{◌≡◌, ◌≤◌, ◌<◌, length, take, drop, OnOk};
ghost use Rattle.std.specs.Prelude.{OnErr, IfOk, slice_set, slice_index_or};
ghost use Rattle.std.specs.List.{insert, remove};
ghost use Rattle.std.specs.Ordering.{nat_cmp, is_le};
ghost use Rattle.std.specs.Cmp.Lexicographic.{slice_cmp};
ghost use Rattle.gm_table.specs.Blocks.{IsBlock, IsSized, first_key, most_rows};
ghost use Rattle.gm_table.specs.declared.row.Row.{Row};

use crate::end::End;
use crate::{Row, RowList};
use gm_base::{Bytes, NoMemory, order_by_fronts};
use std::alloc::Global;
use std::mem;

/// Some rows, with the number of the first bytes of the first key.
#[derive(Debug, Drop)]
pub(crate) struct Block {
    pub(crate) front: u128,
    pub(crate) rows: RowList,
}

impl Block {
    /// Whether the first key is the given one or before it.
    pub(crate) fn begins_by(&self, key: &End<'_>) -> bool
        requires { IsBlock self.now }
        ensures { result ≡ is_le (slice_cmp nat_cmp (first_key self.now.rows) key.now) }
    {
        if let Some(order) = order_by_fronts(self.front, key.front()) {
            return order.is_le();
        }
        self.rows.as_slice()[0]
            .key
            .as_slice()
            .cmp(&key.bytes())
            .is_le()
    }

    /// A block of these rows.
    pub(crate) fn of(rows: Vec<Row>) -> Block
        requires { IsSized rows.items }
        ensures rows { result.rows ≡ rows.items }
        ensures block { IsBlock result }
    {
        let front = rows[0].key.front();
        Block {
            front,
            rows: RowList::from_vec(rows),
        }
    }

    // Takes the rows out, to be changed.
    fn take_rows(&mut self, alloc: Global) -> Vec<Row>
        ensures { result.items ≡ self.old.rows }
    {
        mem::replace(&mut self.rows, RowList::new(alloc)).into_vec()
    }

    /// Puts a row in before the one of that number.
    pub(crate) fn insert(&mut self, alloc: Global, at: usize, row: Row) -> Result<(), NoMemory>
        requires block { IsBlock self.old }
        requires within { at ≤ length self.old.rows }
        requires room { length self.old.rows < most_rows }
        ensures ok { OnOk result (self.new.rows ≡ insert self.old.rows at row) }
        ensures err { OnErr result (self.new.rows ≡ self.old.rows) }
        ensures block { IsBlock self.new }
    {
        let mut rows = self.take_rows(alloc);
        let put = rows.insert(at, row);
        *self = Block::of(rows);
        put?;
        Ok(())
    }

    /// Gives the row of that number other bytes.
    pub(crate) fn replace(&mut self, alloc: Global, at: usize, bytes: Bytes) -> Bytes
        requires block { IsBlock self.old }
        requires within { at < length self.old.rows }
        ensures rows { (d : Row) → self.new.rows ≡ slice_set self.old.rows at
            (record (slice_index_or self.old.rows at d) { bytes = bytes }) }
        ensures had { (d : Row) → result ≡ (slice_index_or self.old.rows at d).bytes }
        ensures block { IsBlock self.new }
    {
        let mut rows = self.take_rows(alloc);
        let old = mem::replace(&mut rows[at].bytes, bytes);
        *self = Block::of(rows);
        old
    }

    /// Takes out the row of that number. Another is left.
    pub(crate) fn remove(&mut self, alloc: Global, at: usize)
        requires block { IsBlock self.old }
        requires within { at < length self.old.rows }
        requires others { 2 ≤ length self.old.rows }
        ensures rows { self.new.rows ≡ remove self.old.rows at }
        ensures block { IsBlock self.new }
    {
        let mut rows = self.take_rows(alloc);
        let _row = rows.remove(at);
        *self = Block::of(rows);
    }

    /// Keeps the rows before that number, and answers a block of the others.
    pub(crate) fn split(&mut self, alloc: Global, at: usize) -> Result<Block, NoMemory>
        requires block { IsBlock self.old }
        requires some { 1 ≤ at }
        requires within { at < length self.old.rows }
        ensures front { OnOk result (self.new.rows ≡ take at self.old.rows) }
        ensures back { IfOk result (λ later. later.rows ≡ drop at self.old.rows) }
        ensures err { OnErr result (self.new.rows ≡ self.old.rows) }
        ensures block { IsBlock self.new }
        ensures back_block { IfOk result (λ later. IsBlock later) }
    {
        let mut rows = self.take_rows(alloc);
        match rows.split_off(at) {
            Ok(later) => {
                *self = Block::of(rows);
                Ok(Block::of(later))
            }
            Err(_) => {
                *self = Block::of(rows);
                Err(NoMemory)
            }
        }
    }
}
