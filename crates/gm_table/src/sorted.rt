// What a sorted table is, whichever way it is kept.
ghost use Rattle.std.specs.Prelude.{◌≡◌, ◌≤◌, ℕ, All, slice_range, OnOk, OnErr, IfErr, IsOk};
ghost use Rattle.std.specs.Prelude.{IsTrue, is_some, if◌then◌else◌, length, [], ◌++◌, map, List};
ghost use Rattle.std.specs.Option.{option_copied};
ghost use Rattle.gm_base.specs.Counter.{capped_sum};
ghost use Rattle.gm_table.specs.Sorted.{Rows, IsRising, at_key, between};
ghost use Rattle.gm_table.specs.Batch.{are_distinct, applied_at};
ghost use Rattle.gm_table.specs.Row.{key_of};
ghost use Rattle.gm_table.specs.Spans.{rows_in};
ghost use Rattle.gm_table.specs.Visit.{Handed, Stops};

use crate::{Batch, Visit};
use gm_base::{Bytes, Counter, NoMemory, SpanList};
use std::alloc::Global;
use std::ops::Range;

/// A table of rows in the order of their keys, byte by byte. Each row that it hands out, by `get`,
/// `scan`, `scan_between` or `scan_spans`, raises the caller's tally by one, and nothing else does.
pub trait Sorted {
    type Tally: Counter + Send;

    /// The rows: pairs of a key and its bytes, whose keys rise.
    ghost rows: { Self → Rows };

    /// The bytes at a key, and `None` exactly where the table has not the key. No memory.
    fn get(&self, key: &Bytes, tally: &mut Self::Tally) -> Option<&[u8]>
        ensures found { option_copied result ≡ at_key key.now (rows self.now) }
        ensures tally { Self.Tally.number tally.new
            ≡ capped_sum (Self.Tally.number tally.old) (if is_some result then 1 else 0) };

    /// Hands out the rows with low <= key < high, in order, one call of `row` each. `NoMemory` is
    /// the answer exactly where a call of `row` answered so: that call was the last.
    fn scan<V: Visit>(
        &self,
        alloc: Global,
        low: &Bytes,
        high: &Bytes,
        visit: &mut V,
        tally: &mut Self::Tally,
    ) -> Result<(), NoMemory>
        requires { All (λ row. V.admits visit.old row.0 row.1)
            (between low.now high.now (rows self.now)) }
        ensures handed { OnOk result
            (Handed V.takes visit.old (between low.now high.now (rows self.now)) visit.new) }
        ensures tally { OnOk result (Self.Tally.number tally.new
            ≡ capped_sum (Self.Tally.number tally.old)
            (length (between low.now high.now (rows self.now)))) }
        ensures stopped { IfErr result (λ fault. (handed : ℕ)
            × Stops V.takes visit.old
            (between low.now high.now (rows self.now)) fault visit.new handed
            × (Self.Tally.number tally.new ≡ capped_sum (Self.Tally.number tally.old) handed)) }
    {
        self.scan_between(alloc, low.as_slice(), high.as_slice(), visit, tally)
    }

    /// Does what `scan` does, between two keys that are lent as slices.
    fn scan_between<V: Visit>(
        &self,
        alloc: Global,
        low: &[u8],
        high: &[u8],
        visit: &mut V,
        tally: &mut Self::Tally,
    ) -> Result<(), NoMemory>
        requires { All (λ row. V.admits visit.old row.0 row.1)
            (between low.now high.now (rows self.now)) }
        ensures handed { OnOk result
            (Handed V.takes visit.old (between low.now high.now (rows self.now)) visit.new) }
        ensures tally { OnOk result (Self.Tally.number tally.new
            ≡ capped_sum (Self.Tally.number tally.old)
            (length (between low.now high.now (rows self.now)))) }
        ensures stopped { IfErr result (λ fault. (handed : ℕ)
            × Stops V.takes visit.old
            (between low.now high.now (rows self.now)) fault visit.new handed
            × (Self.Tally.number tally.new ≡ capped_sum (Self.Tally.number tally.old) handed)) };

    /// Hands out the rows of each span in this part of the list in turn, as calls of `scan` for one
    /// span after the other would. The spans may be in any order, overlap or be empty. `NoMemory`
    /// is the answer exactly where a call of `row` answered so: that call was the last.
    fn scan_spans<V: Visit>(
        &self,
        alloc: Global,
        spans: &SpanList,
        part: Range<usize>,
        visit: &mut V,
        tally: &mut Self::Tally,
    ) -> Result<(), NoMemory>
        requires part { (part.start ≤ part.end) × (part.end ≤ length spans.now) }
        requires admits { All (λ row. V.admits visit.old row.0 row.1)
            (rows_in (slice_range spans.now part.start part.end) (rows self.now)) }
        ensures handed { OnOk result (Handed V.takes visit.old
            (rows_in (slice_range spans.now part.start part.end) (rows self.now)) visit.new) }
        ensures tally { OnOk result (Self.Tally.number tally.new
            ≡ capped_sum (Self.Tally.number tally.old)
            (length (rows_in (slice_range spans.now part.start part.end) (rows self.now)))) }
        ensures stopped { IfErr result (λ fault. (handed : ℕ)
            × Stops V.takes visit.old
            (rows_in (slice_range spans.now part.start part.end) (rows self.now))
            fault visit.new handed
            × (Self.Tally.number tally.new ≡ capped_sum (Self.Tally.number tally.old) handed)) }
    {
        for i in part.start..part.end {
            let (low, high) = spans.get(i);
            self.scan_between(alloc, low, high, visit, tally)?;
        }
        Ok(())
    }

    /// Makes a change, whole or not at all: after `NoMemory` the table is as before. A batch that
    /// puts nothing takes no memory.
    fn apply(&mut self, alloc: Global, batch: &Batch) -> Result<(), NoMemory>
        requires { IsTrue (are_distinct (batch.now.removes ++ map key_of batch.now.puts)) }
        ensures ok { OnOk result ((key : List ℕ) → at_key key (rows self.new)
            ≡ applied_at key batch.now.removes batch.now.puts (at_key key (rows self.old))) }
        ensures err { OnErr result (rows self.new ≡ rows self.old) }
        ensures no_puts { batch.now.puts ≡ [] → IsOk result };

    /// The number of rows. No memory.
    fn count(&self) -> u64
        ensures { result ≡ length (rows self.now) };

    /// The keys rise.
    ghost rising: { (table : Self) → IsRising (rows table) };
}
