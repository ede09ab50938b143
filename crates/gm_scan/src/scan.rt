// Features in ranges of keys of which a filter is true, their number, and their rows.
ghost use Rattle.std.specs.Prelude.{◌≡◌, ◌≤◌, ◌++◌, ℕ, List, All, IfOk, OnOk, OnErr, length, map};
ghost use Rattle.gm_base.specs.Counter.{capped_sum};
ghost use Rattle.gm_table.specs.Apart.{AreApart};
ghost use Rattle.gm_table.specs.Spans.{rows_in};
ghost use Rattle.gm_table.specs.Visit.{Handed};
ghost use Rattle.gm_feature.specs.declared.feature.Feature.{Feature as AnyFeature};
ghost use Rattle.gm_filter.specs.Suitability.{Suits};
ghost use Rattle.gm_filter.specs.Tree.{tree};
ghost use Rattle.gm_scan.specs.FoundRows.{kept_of};
ghost use Rattle.gm_scan.specs.Held.{HasFeature, Hold, matching};

use crate::counted::Counted;
use crate::found::Found;
use crate::found_rows::{FoundRows, Keeping};
use crate::kept::Kept;
use crate::laws::ranges_apart_have_few_rows;
use crate::trial::Trial;
use gm_base::{NoMemory, SpanList};
use gm_feature::FeatureList;
use gm_filter::Filter;
use gm_table::{Sorted, Visit};
use gm_types::FeatureType;
use std::alloc::Global;
use std::mem;

/// The features of the rows in the ranges of which the filter is true, in the order of the ranges
/// and of the keys in each. Each row in the ranges raises the tally by one. A row in two ranges
/// comes twice.
pub fn scan_one<'a, S: Sorted>(
    alloc: Global,
    of: &'a FeatureType,
    table: &S,
    ranges: &SpanList,
    filter: &'a Filter,
    tally: &mut S::Tally,
) -> Result<FeatureList, NoMemory>
    requires suits { Suits of.now (tree filter.now) }
    requires features { All (λ row. HasFeature of.now row.1)
        (rows_in ranges.now (S.rows table.now)) }
    ensures found { (held : List AnyFeature)
        → Hold of.now (rows_in ranges.now (S.rows table.now)) held
        → IfOk result (λ found. found ≡ matching (tree filter.now) held) }
    ensures tally { OnOk result (S.Tally.number tally.new ≡ capped_sum (S.Tally.number tally.old)
        (length (rows_in ranges.now (S.rows table.now)))) }
    ensures stopped { OnErr result ((handed : ℕ)
        × (handed ≤ length (rows_in ranges.now (S.rows table.now)))
        × (S.Tally.number tally.new ≡ capped_sum (S.Tally.number tally.old) handed)) }
{
    let trial = Trial::of(alloc, of, filter)?;
    let mut found = Found::new(alloc, &trial);
    read(alloc, table, ranges, &mut found, tally)?;
    Ok(found.into_features())
}

/// The number of the rows in the ranges of which the filter is true. Each row in the ranges raises
/// the tally by one.
pub fn count_one<'a, S: Sorted>(
    alloc: Global,
    of: &'a FeatureType,
    table: &S,
    ranges: &SpanList,
    filter: &'a Filter,
    tally: &mut S::Tally,
) -> Result<u64, NoMemory>
    requires suits { Suits of.now (tree filter.now) }
    requires features { All (λ row. HasFeature of.now row.1)
        (rows_in ranges.now (S.rows table.now)) }
    requires apart { AreApart ranges.now }
    ensures matched { (held : List AnyFeature)
        → Hold of.now (rows_in ranges.now (S.rows table.now)) held
        → IfOk result (λ matched. matched ≡ length (matching (tree filter.now) held)) }
    ensures tally { OnOk result (S.Tally.number tally.new ≡ capped_sum (S.Tally.number tally.old)
        (length (rows_in ranges.now (S.rows table.now)))) }
    ensures stopped { OnErr result ((handed : ℕ)
        × (handed ≤ length (rows_in ranges.now (S.rows table.now)))
        × (S.Tally.number tally.new ≡ capped_sum (S.Tally.number tally.old) handed)) }
{
    ranges_apart_have_few_rows();
    // The number of the table's rows is a u64, and the ranges have no more.
    let _rows = table.count();
    let trial = Trial::of(alloc, of, filter)?;
    let mut counted = Counted::new(&trial);
    read(alloc, table, ranges, &mut counted, tally)?;
    Ok(counted.matched())
}

/// Appends, for each feature that `scan_one` would find, in the same order, what is kept of it. No
/// feature is made. Each row in the ranges raises the tally by one.
pub fn scan_kept<'a, S: Sorted>(
    alloc: Global,
    of: &'a FeatureType,
    table: &S,
    ranges: &SpanList,
    filter: &'a Filter,
    keeping: Keeping,
    found: &mut FoundRows,
    tally: &mut S::Tally,
) -> Result<(), NoMemory>
    requires suits { Suits of.now (tree filter.now) }
    requires features { All (λ row. HasFeature of.now row.1)
        (rows_in ranges.now (S.rows table.now)) }
    ensures found { (held : List AnyFeature)
        → Hold of.now (rows_in ranges.now (S.rows table.now)) held
        → OnOk result (found.new ≡ found.old
        ++ map (kept_of keeping) (matching (tree filter.now) held)) }
    ensures tally { OnOk result (S.Tally.number tally.new ≡ capped_sum (S.Tally.number tally.old)
        (length (rows_in ranges.now (S.rows table.now)))) }
    ensures stopped { OnErr result ((handed : ℕ)
        × (handed ≤ length (rows_in ranges.now (S.rows table.now)))
        × (S.Tally.number tally.new ≡ capped_sum (S.Tally.number tally.old) handed)) }
{
    let trial = Trial::of(alloc, of, filter)?;
    let before = mem::replace(found, FoundRows::new(alloc));
    let mut kept = Kept::behind(&trial, keeping, before);
    let answer = read(alloc, table, ranges, &mut kept, tally);
    *found = kept.into_rows();
    answer
}

// Hands out the rows in all ranges.
fn read<S: Sorted, V: Visit>(
    alloc: Global,
    table: &S,
    ranges: &SpanList,
    visit: &mut V,
    tally: &mut S::Tally,
) -> Result<(), NoMemory>
    requires admits { All (λ row. V.admits visit.old row.0 row.1)
        (rows_in ranges.now (S.rows table.now)) }
    ensures handed { OnOk result
        (Handed V.takes visit.old (rows_in ranges.now (S.rows table.now)) visit.new) }
    ensures tally { OnOk result (S.Tally.number tally.new ≡ capped_sum (S.Tally.number tally.old)
        (length (rows_in ranges.now (S.rows table.now)))) }
    ensures stopped { OnErr result ((handed : ℕ)
        × (handed ≤ length (rows_in ranges.now (S.rows table.now)))
        × (S.Tally.number tally.new ≡ capped_sum (S.Tally.number tally.old) handed)) }
{
    table.scan_spans(alloc, ranges, 0..ranges.len(), visit, tally)
}
