// Spans of keys handed out from blocks, each from where the last one ended.
ghost use Rattle.std.specs.Prelude.{◌≡◌, ◌≤◌, ◌<◌, [], ◌∷◌, ℕ, All, slice_range, OnOk};
ghost use Rattle.std.specs.Prelude.{IfErr, IfSome, MatchOption, length, drop, true};
ghost use Rattle.std.specs.List.{AllByRecursion};
ghost use Rattle.std.specs.Ordering.{nat_cmp, is_le};
ghost use Rattle.std.specs.Cmp.Lexicographic.{slice_cmp};
ghost use Rattle.gm_base.specs.Counter.{capped_sum};
ghost use Rattle.gm_base.specs.Tally.{tally_number};
ghost use Rattle.gm_table.specs.Blocks.{IsAtKey, IsBlock, IsPlace, lists_of};
ghost use Rattle.gm_table.specs.Blocks.{pair_of, pairs_of, rows_of, rows_at};
ghost use Rattle.gm_table.specs.Cursor.{rows_below, rows_after};
ghost use Rattle.gm_table.specs.Sorted.{IsRising, Rows, between};
ghost use Rattle.gm_table.specs.Spans.{rows_in};
ghost use Rattle.gm_table.specs.Visit.{Handed, Stops};

use crate::blocks::block::Block;
use crate::blocks::search::{Place, place_in, place_of, place_past};
use crate::blocks::walk::{hand_out_until, rest_of};
use crate::end::End;
use crate::{Row, Visit};
use gm_base::{NoMemory, SpanList, Tally};
use std::alloc::Global;
use std::ops::Range;

/// The place of a key in some blocks.
#[derive(Drop)]
pub(crate) struct BlockCursor<'a> {
    from: End<'a>,
    place: Place,
}

impl<'a> BlockCursor<'a> {
    /// The place of this key.
    pub(crate) fn at(blocks: &[Block], low: &'a [u8]) -> BlockCursor<'a>
        requires each { AllByRecursion IsBlock blocks.now }
        requires rising { IsRising (rows_of (lists_of blocks.now)) }
        ensures { IsAtKey blocks.now result.from result.place.block result.place.row }
    {
        let from = End::of(low);
        let place = place_from(blocks, &from);
        BlockCursor { from, place }
    }

    /// Hands out the rows between two keys, from where the cursor is if they may lie there.
    pub(crate) fn scan<V: Visit>(
        &mut self,
        alloc: Global,
        blocks: &[Block],
        low: &'a [u8],
        high: &'a [u8],
        visit: &mut V,
        tally: &mut Tally,
    ) -> Result<(), NoMemory>
        requires each { AllByRecursion IsBlock blocks.now }
        requires rising { IsRising (rows_of (lists_of blocks.now)) }
        requires at { IsAtKey blocks.now self.old.from self.old.place.block self.old.place.row }
        requires admits { All (λ row. V.admits visit.old row.0 row.1)
            (between low.now high.now (rows_of (lists_of blocks.now))) }
        ensures at { OnOk result
            (IsAtKey blocks.now self.new.from self.new.place.block self.new.place.row) }
        ensures handed { OnOk result (Handed V.takes visit.old
            (between low.now high.now (rows_of (lists_of blocks.now))) visit.new) }
        ensures tally { OnOk result (tally_number tally.new ≡ capped_sum (tally_number tally.old)
            (length (between low.now high.now (rows_of (lists_of blocks.now))))) }
        ensures stopped { IfErr result (λ fault. (handed : ℕ)
            × Stops V.takes visit.old
            (between low.now high.now (rows_of (lists_of blocks.now))) fault visit.new handed
            × (tally_number tally.new ≡ capped_sum (tally_number tally.old) handed)) }
    {
        self.scan_ends(alloc, blocks, &End::of(low), End::of(high), visit, tally)
    }

    // The same, of ends whose first bytes are at hand.
    fn scan_ends<V: Visit>(
        &mut self,
        alloc: Global,
        blocks: &[Block],
        low: &End<'a>,
        high: End<'a>,
        visit: &mut V,
        tally: &mut Tally,
    ) -> Result<(), NoMemory>
        requires each { AllByRecursion IsBlock blocks.now }
        requires rising { IsRising (rows_of (lists_of blocks.now)) }
        requires at { IsAtKey blocks.now self.old.from self.old.place.block self.old.place.row }
        requires admits { All (λ row. V.admits visit.old row.0 row.1)
            (between low.now high (rows_of (lists_of blocks.now))) }
        ensures at { OnOk result
            (IsAtKey blocks.now self.new.from self.new.place.block self.new.place.row) }
        ensures handed { OnOk result (Handed V.takes visit.old
            (between low.now high.entry (rows_of (lists_of blocks.now))) visit.new) }
        ensures tally { OnOk result (tally_number tally.new ≡ capped_sum (tally_number tally.old)
            (length (between low.now high.entry (rows_of (lists_of blocks.now))))) }
        ensures stopped { IfErr result (λ fault. (handed : ℕ)
            × Stops V.takes visit.old
            (between low.now high.entry (rows_of (lists_of blocks.now))) fault visit.new handed
            × (tally_number tally.new ≡ capped_sum (tally_number tally.old) handed)) }
    {
        if self.is_clear(blocks, low, &high) {
            return Ok(());
        }
        if !low.is_up_to(&high) {
            return Ok(());
        }
        let place = self.reach(blocks, low);
        self.place = hand_out_until(alloc, blocks, place, &high, visit, tally)?;
        self.from = high;
        Ok(())
    }

    // Whether no row from the cursor's key on is below `high`, and `low` is not below that key.
    fn is_clear(&self, blocks: &[Block], low: &End<'_>, high: &End<'_>) -> bool
        requires each { AllByRecursion IsBlock blocks.now }
        requires place { IsPlace self.now.place.block self.now.place.row blocks.now }
        ensures from { result ≡ true → is_le (slice_cmp nat_cmp self.now.from low.now) ≡ true }
        ensures clear { result ≡ true →
            rows_below high.now (rows_at self.now.place.block self.now.place.row blocks.now) ≡ [] }
    {
        if !self.from.is_up_to(low) {
            return false;
        }
        match row_at(blocks, self.place) {
            Some(row) => high.is_reached(&row.key),
            None => true,
        }
    }

    // The place of a key: in the same block if it is there, and else, where the key is not below
    // the cursor's, in that block or a later one.
    fn reach(&self, blocks: &[Block], low: &End<'_>) -> Place
        requires each { AllByRecursion IsBlock blocks.now }
        requires rising { IsRising (rows_of (lists_of blocks.now)) }
        requires at { IsAtKey blocks.now self.now.from self.now.place.block self.now.place.row }
        ensures { IsAtKey blocks.now low.now result.block result.row }
    {
        if !self.from.is_up_to(low) {
            return place_from(blocks, low);
        }
        if let Some(place) = step_to(blocks, self.place, low) {
            return place;
        }
        place_past(blocks, self.place.block, low)
    }
}

/// Hands out the rows between two ends.
pub(crate) fn scan_range<V: Visit>(
    alloc: Global,
    blocks: &[Block],
    low: &End<'_>,
    high: &End<'_>,
    visit: &mut V,
    tally: &mut Tally,
) -> Result<(), NoMemory>
    requires each { AllByRecursion IsBlock blocks.now }
    requires rising { IsRising (rows_of (lists_of blocks.now)) }
    requires admits { All (λ row. V.admits visit.old row.0 row.1)
        (between low.now high.now (rows_of (lists_of blocks.now))) }
    ensures handed { OnOk result (Handed V.takes visit.old
        (between low.now high.now (rows_of (lists_of blocks.now))) visit.new) }
    ensures tally { OnOk result (tally_number tally.new ≡ capped_sum (tally_number tally.old)
        (length (between low.now high.now (rows_of (lists_of blocks.now))))) }
    ensures stopped { IfErr result (λ fault. (handed : ℕ)
        × Stops V.takes visit.old
        (between low.now high.now (rows_of (lists_of blocks.now))) fault visit.new handed
        × (tally_number tally.new ≡ capped_sum (tally_number tally.old) handed)) }
{
    let place = place_from(blocks, low);
    let _end = hand_out_until(alloc, blocks, place, high, visit, tally)?;
    Ok(())
}

/// Hands out the rows of each span in this part of the list in turn, each from where the last one
/// ended.
pub(crate) fn scan_part<V: Visit>(
    alloc: Global,
    blocks: &[Block],
    spans: &SpanList,
    part: Range<usize>,
    visit: &mut V,
    tally: &mut Tally,
) -> Result<(), NoMemory>
    requires each { AllByRecursion IsBlock blocks.now }
    requires rising { IsRising (rows_of (lists_of blocks.now)) }
    requires part { (part.start ≤ part.end) × (part.end ≤ length spans.now) }
    requires admits { All (λ row. V.admits visit.old row.0 row.1)
        (rows_in (slice_range spans.now part.start part.end) (rows_of (lists_of blocks.now))) }
    ensures handed { OnOk result (Handed V.takes visit.old
        (rows_in (slice_range spans.now part.start part.end) (rows_of (lists_of blocks.now)))
        visit.new) }
    ensures tally { OnOk result (tally_number tally.new ≡ capped_sum (tally_number tally.old)
        (length (rows_in (slice_range spans.now part.start part.end)
        (rows_of (lists_of blocks.now))))) }
    ensures stopped { IfErr result (λ fault. (handed : ℕ)
        × Stops V.takes visit.old
        (rows_in (slice_range spans.now part.start part.end) (rows_of (lists_of blocks.now)))
        fault visit.new handed
        × (tally_number tally.new ≡ capped_sum (tally_number tally.old) handed)) }
{
    if part.start == part.end {
        return Ok(());
    }
    let mut cursor = BlockCursor::at(blocks, spans.get(part.start).0);
    for i in part.start..part.end {
        let (low, high) = spans.get(i);
        cursor.scan(alloc, blocks, low, high, visit, tally)?;
    }
    Ok(())
}

// The place of a key.
fn place_from(blocks: &[Block], low: &End<'_>) -> Place
    requires each { AllByRecursion IsBlock blocks.now }
    requires rising { IsRising (rows_of (lists_of blocks.now)) }
    ensures { IsAtKey blocks.now low.now result.block result.row }
{
    place_of(blocks, low)
}

// The place of a key that is not before the given place, if it is in the same block: where a row of
// that block, from the place on, is not before the key.
fn step_to(blocks: &[Block], at: Place, key: &End<'_>) -> Option<Place>
    requires rising { IsRising (rows_of (lists_of blocks.now)) }
    requires place { IsPlace at.block at.row blocks.now }
    ensures place { IfSome result (λ end. IsPlace end.block end.row blocks.now) }
    ensures rows { IfSome result (λ end. rows_at end.block end.row blocks.now
        ≡ rows_after key.now (rows_at at.block at.row blocks.now)) }
{
    if at.block >= blocks.len() {
        return None;
    }
    let rest = rest_of(blocks[at.block].rows.as_slice(), at.row);
    let count = place_inside(rest, key)?;
    Some(Place {
        block: at.block,
        row: at.row + count,
    })
}

// How many of the rows are before the key, if the last of them is not.
fn place_inside(rows: &[Row], key: &End<'_>) -> Option<usize>
    requires { IsRising (pairs_of rows.now) }
    ensures inside { IfSome result (λ count. count < length rows.now) }
    ensures from { IfSome result (λ count. pairs_of (drop count rows.now)
        ≡ rows_after key.now (pairs_of rows.now)) }
{
    let last = rows.last()?;
    if !key.is_reached(&last.key) {
        return None;
    }
    Some(place_in(rows, key))
}

/// The first row from the place on.
pub(crate) fn row_at(blocks: &[Block], at: Place) -> Option<&Row>
    requires each { AllByRecursion IsBlock blocks.now }
    requires place { IsPlace at.block at.row blocks.now }
    ensures { MatchOption result (rows_at at.block at.row blocks.now ≡ [])
        (λ row. (later : Rows) × (rows_at at.block at.row blocks.now ≡ pair_of row.now ∷ later)) }
{
    if at.block >= blocks.len() {
        return None;
    }
    let rows = blocks[at.block].rows.as_slice();
    if at.row < rows.len() {
        return Some(&rows[at.row]);
    }
    let next = at.block + 1;
    if next >= blocks.len() {
        return None;
    }
    Some(&blocks[next].rows.as_slice()[0])
}
