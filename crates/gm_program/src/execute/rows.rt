// The rows that the parts of a plan find, as they stand in the table.
ghost use Rattle.std.specs.Prelude.{◌≡◌, ◌≤◌, [], All, map, length, IfOk, OnOk};
ghost use Rattle.gm_base.specs.Counter.{capped_sum};
ghost use Rattle.gm_engine_rows.specs.State.{State};
ghost use Rattle.gm_engine_rows.specs.Rows.{rows_of};
ghost use Rattle.gm_filter.specs.Tree.{tree};
ghost use Rattle.gm_strategy.specs.Choice.{IsServed, chosen_of};
ghost use Rattle.gm_program.specs.Found.{tests_of};
ghost use Rattle.gm_program.specs.Kept.{Adds, AreKept};
ghost use Rattle.gm_program.specs.Question.{rows_read, rows_examined};
ghost use Rattle.gm_program.specs.Store.{IsTypeOf, HasType};

use super::spans::spans_of;
use gm_base::{Counter, NoMemory};
use gm_scan::{FoundRows, Keeping, scan_kept};
use gm_strategy::Part;
use gm_table::Sorted;
use gm_types::FeatureType;
use std::alloc::Global;

/// The rows that the parts of a plan find, and how many rows are examined for them.
#[derive(Drop)]
pub(super) struct ReadRows {
    pub(super) rows: FoundRows,
    pub(super) examined: u64,
}

/// Reads the parts of a plan. What two parts find comes twice.
pub(super) fn read_rows<B: Sorted>(
    alloc: Global,
    of: &FeatureType,
    parts: &[Part],
    target: u32,
    keeping: Keeping,
    table: &B,
    tally: &mut B::Tally,
) -> Result<ReadRows, NoMemory>
    requires typed { HasType of.now (B.rows table.now) }
    requires served { All (IsServed of.now) (map chosen_of parts.now) }
    requires few { length parts.now ≤ 8 }
    requires least { 1 ≤ target }
    requires most { target ≤ 10000 }
    ensures found { (s : State) → IsTypeOf s of.now (B.rows table.now) → IfOk result (λ read.
        AreKept s of.now.number (tests_of (map chosen_of parts.now)) keeping read.rows) }
    ensures examined { (s : State) → IsTypeOf s of.now (B.rows table.now) → IfOk result (λ read.
        (read.examined ≡ rows_examined of.now target (rows_of s) (map chosen_of parts.now))
        × (B.Tally.number tally.new ≡ capped_sum (B.Tally.number tally.old) read.examined)) }
{
    let mut counter = tally.part();
    let mut rows = FoundRows::new(alloc);
    let read = read_each(
        alloc,
        of,
        parts,
        target,
        keeping,
        table,
        &mut rows,
        &mut counter,
    );
    let examined = counter.rows();
    tally.join(counter);
    read?;
    Ok(ReadRows { rows, examined })
}

// Reads one part after the other, behind no rows.
fn read_each<B: Sorted>(
    alloc: Global,
    of: &FeatureType,
    parts: &[Part],
    target: u32,
    keeping: Keeping,
    table: &B,
    rows: &mut FoundRows,
    tally: &mut B::Tally,
) -> Result<(), NoMemory>
    requires none { rows.old ≡ [] }
    requires typed { HasType of.now (B.rows table.now) }
    requires served { All (IsServed of.now) (map chosen_of parts.now) }
    requires least { 1 ≤ target }
    requires most { target ≤ 10000 }
    ensures found { (s : State) → IsTypeOf s of.now (B.rows table.now) → OnOk result
        (AreKept s of.now.number (tests_of (map chosen_of parts.now)) keeping rows.new) }
    ensures tally { (s : State) → IsTypeOf s of.now (B.rows table.now)
        → OnOk result (B.Tally.number tally.new
        ≡ capped_sum (B.Tally.number tally.old)
        (rows_examined of.now target (rows_of s) (map chosen_of parts.now))) }
{
    'parts: for part in parts {
        read_one(alloc, of, part, target, keeping, table, rows, tally)?;
    }
    Ok(())
}

// Appends what a part finds, in the order of its ranges and of the keys.
fn read_one<B: Sorted>(
    alloc: Global,
    of: &FeatureType,
    part: &Part,
    target: u32,
    keeping: Keeping,
    table: &B,
    rows: &mut FoundRows,
    tally: &mut B::Tally,
) -> Result<(), NoMemory>
    requires typed { HasType of.now (B.rows table.now) }
    requires served { IsServed of.now (chosen_of part.now) }
    requires least { 1 ≤ target }
    requires most { target ≤ 10000 }
    ensures found { (s : State) → IsTypeOf s of.now (B.rows table.now) → OnOk result
        (Adds s of.now.number (tree part.now.filter) keeping rows.old rows.new) }
    ensures tally { (s : State) → IsTypeOf s of.now (B.rows table.now)
        → OnOk result (B.Tally.number tally.new
        ≡ capped_sum (B.Tally.number tally.old)
        (rows_read of.now target (rows_of s) (chosen_of part.now))) }
{
    let spans = spans_of(alloc, of, part, target)?;
    scan_kept(alloc, of, table, &spans, &part.filter, keeping, rows, tally)
}
