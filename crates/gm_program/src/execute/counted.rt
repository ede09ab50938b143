// How many features the parts of a plan find.
ghost use Rattle.std.specs.Prelude.{◌≡◌, ◌≤◌, [], ◌∷◌, All, map, length, IfOk, OnOk};
ghost use Rattle.gm_base.specs.Counter.{capped_sum};
ghost use Rattle.gm_engine_rows.specs.State.{State};
ghost use Rattle.gm_engine_rows.specs.Rows.{rows_of};
ghost use Rattle.gm_filter.specs.Tree.{tree};
ghost use Rattle.gm_strategy.specs.Choice.{IsServed, chosen_of};
ghost use Rattle.gm_program.specs.Collecting.{Counts};
ghost use Rattle.gm_program.specs.Found.{tests_of};
ghost use Rattle.gm_program.specs.Question.{rows_read, rows_examined};
ghost use Rattle.gm_program.specs.Store.{IsTypeOf, HasType};

use super::in_order::count_in_order;
use super::rows::read_rows;
use super::spans::spans_of;
use gm_base::{Counter, NoMemory};
use gm_scan::{Keeping, count_one};
use gm_strategy::Part;
use gm_table::Sorted;
use gm_types::FeatureType;
use std::alloc::Global;

/// How many features are found, and how many rows are examined for them.
#[derive(Clone, Copy, Debug)]
pub(super) struct Counted {
    pub(super) matched: u64,
    pub(super) examined: u64,
}

/// Counts what the parts of a plan find. Where there are several, one feature may be found by two,
/// so their identifiers are kept.
pub(super) fn count_plan<B: Sorted>(
    alloc: Global,
    of: &FeatureType,
    parts: &[Part],
    target: u32,
    table: &B,
    tally: &mut B::Tally,
) -> Result<Counted, NoMemory>
    requires typed { HasType of.now (B.rows table.now) }
    requires served { All (IsServed of.now) (map chosen_of parts.now) }
    requires few { length parts.now ≤ 8 }
    requires least { 1 ≤ target }
    requires most { target ≤ 10000 }
    ensures matched { (s : State) → IsTypeOf s of.now (B.rows table.now) → IfOk result (λ counted.
        Counts s of.now.number (tests_of (map chosen_of parts.now)) counted.matched) }
    ensures examined { (s : State) → IsTypeOf s of.now (B.rows table.now) → IfOk result (λ counted.
        (counted.examined ≡ rows_examined of.now target (rows_of s) (map chosen_of parts.now))
        × (B.Tally.number tally.new ≡ capped_sum (B.Tally.number tally.old) counted.examined)) }
{
    if parts.len() == 1 {
        return count_alone(alloc, of, &parts[0], target, table, tally);
    }
    let read = read_rows(alloc, of, parts, target, Keeping::Ids, table, tally)?;
    let matched = count_in_order(alloc, &read.rows)?;
    let examined = read.examined;
    Ok(Counted { matched, examined })
}

// Counts what one part finds.
fn count_alone<B: Sorted>(
    alloc: Global,
    of: &FeatureType,
    part: &Part,
    target: u32,
    table: &B,
    tally: &mut B::Tally,
) -> Result<Counted, NoMemory>
    requires typed { HasType of.now (B.rows table.now) }
    requires served { IsServed of.now (chosen_of part.now) }
    requires least { 1 ≤ target }
    requires most { target ≤ 10000 }
    ensures matched { (s : State) → IsTypeOf s of.now (B.rows table.now) → IfOk result (λ counted.
        Counts s of.now.number (tree part.now.filter ∷ []) counted.matched) }
    ensures examined { (s : State) → IsTypeOf s of.now (B.rows table.now) → IfOk result (λ counted.
        (counted.examined ≡ rows_read of.now target (rows_of s) (chosen_of part.now))
        × (B.Tally.number tally.new ≡ capped_sum (B.Tally.number tally.old) counted.examined)) }
{
    let mut counter = tally.part();
    let count = count_part(alloc, of, part, target, table, &mut counter);
    let examined = counter.rows();
    tally.join(counter);
    let matched = count?;
    Ok(Counted { matched, examined })
}

// Each feature of the type has one key in an index, and no key is read twice.
fn count_part<B: Sorted>(
    alloc: Global,
    of: &FeatureType,
    part: &Part,
    target: u32,
    table: &B,
    tally: &mut B::Tally,
) -> Result<u64, NoMemory>
    requires typed { HasType of.now (B.rows table.now) }
    requires served { IsServed of.now (chosen_of part.now) }
    requires least { 1 ≤ target }
    requires most { target ≤ 10000 }
    ensures matched { (s : State) → IsTypeOf s of.now (B.rows table.now)
        → IfOk result (Counts s of.now.number (tree part.now.filter ∷ [])) }
    ensures tally { (s : State) → IsTypeOf s of.now (B.rows table.now)
        → OnOk result (B.Tally.number tally.new
        ≡ capped_sum (B.Tally.number tally.old)
        (rows_read of.now target (rows_of s) (chosen_of part.now))) }
{
    let spans = spans_of(alloc, of, part, target)?;
    count_one(alloc, of, table, &spans, &part.filter, tally)
}
