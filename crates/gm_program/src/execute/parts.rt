// The parts of a plan, read one after the other.
ghost use Rattle.std.specs.Prelude.{◌≡◌, ◌≤◌, All, map, length, IfOk, OnOk};
ghost use Rattle.gm_base.specs.Counter.{capped_sum};
ghost use Rattle.gm_engine_rows.specs.State.{State};
ghost use Rattle.gm_engine_rows.specs.Rows.{rows_of};
ghost use Rattle.gm_filter.specs.Tree.{tree};
ghost use Rattle.gm_strategy.specs.Choice.{IsServed, chosen_of};
ghost use Rattle.gm_program.specs.Collecting.{Collects};
ghost use Rattle.gm_program.specs.Found.{Finds, tests_of};
ghost use Rattle.gm_program.specs.Question.{rows_read, rows_examined};
ghost use Rattle.gm_program.specs.Store.{IsTypeOf, HasType};

use super::found::Found;
use super::spans::spans_of;
use gm_base::{Counter, NoMemory};
use gm_feature::FeatureList;
use gm_scan::scan_one;
use gm_strategy::Part;
use gm_table::Sorted;
use gm_types::FeatureType;
use std::alloc::Global;

/// The features that the parts of a plan find, and how many rows are examined for them.
#[derive(Drop)]
pub(super) struct Read {
    pub(super) found: Found,
    pub(super) examined: u64,
}

/// Reads the parts of a plan.
pub(super) fn read_plan<B: Sorted>(
    alloc: Global,
    of: &FeatureType,
    parts: &[Part],
    target: u32,
    table: &B,
    tally: &mut B::Tally,
) -> Result<Read, NoMemory>
    requires typed { HasType of.now (B.rows table.now) }
    requires served { All (IsServed of.now) (map chosen_of parts.now) }
    requires few { length parts.now ≤ 8 }
    requires least { 1 ≤ target }
    requires most { target ≤ 10000 }
    ensures found { (s : State) → IsTypeOf s of.now (B.rows table.now) → IfOk result (λ read.
        Collects s of.now.number (tests_of (map chosen_of parts.now)) read.found.values.entries) }
    ensures examined { (s : State) → IsTypeOf s of.now (B.rows table.now) → IfOk result (λ read.
        (read.examined ≡ rows_examined of.now target (rows_of s) (map chosen_of parts.now))
        × (B.Tally.number tally.new ≡ capped_sum (B.Tally.number tally.old) read.examined)) }
{
    let mut counter = tally.part();
    let read = read_parts(alloc, of, parts, target, table, &mut counter);
    let examined = counter.rows();
    tally.join(counter);
    let found = read?;
    Ok(Read { found, examined })
}

// Reads one part after the other.
fn read_parts<B: Sorted>(
    alloc: Global,
    of: &FeatureType,
    parts: &[Part],
    target: u32,
    table: &B,
    tally: &mut B::Tally,
) -> Result<Found, NoMemory>
    requires typed { HasType of.now (B.rows table.now) }
    requires served { All (IsServed of.now) (map chosen_of parts.now) }
    requires least { 1 ≤ target }
    requires most { target ≤ 10000 }
    ensures found { (s : State) → IsTypeOf s of.now (B.rows table.now) → IfOk result (λ found.
        Collects s of.now.number (tests_of (map chosen_of parts.now)) found.values.entries) }
    ensures tally { (s : State) → IsTypeOf s of.now (B.rows table.now)
        → OnOk result (B.Tally.number tally.new
        ≡ capped_sum (B.Tally.number tally.old)
        (rows_examined of.now target (rows_of s) (map chosen_of parts.now))) }
{
    let mut found = Found::new(alloc);
    'parts: for part in parts {
        let features = read_part(alloc, of, part, target, table, tally)?;
        found.take(features)?;
    }
    Ok(found)
}

// The features that a part finds, in the order of its ranges and of the keys.
fn read_part<B: Sorted>(
    alloc: Global,
    of: &FeatureType,
    part: &Part,
    target: u32,
    table: &B,
    tally: &mut B::Tally,
) -> Result<FeatureList, NoMemory>
    requires typed { HasType of.now (B.rows table.now) }
    requires served { IsServed of.now (chosen_of part.now) }
    requires least { 1 ≤ target }
    requires most { target ≤ 10000 }
    ensures found { (s : State) → IsTypeOf s of.now (B.rows table.now)
        → IfOk result (Finds s of.now.number (tree part.now.filter)) }
    ensures tally { (s : State) → IsTypeOf s of.now (B.rows table.now)
        → OnOk result (B.Tally.number tally.new
        ≡ capped_sum (B.Tally.number tally.old)
        (rows_read of.now target (rows_of s) (chosen_of part.now))) }
{
    let spans = spans_of(alloc, of, part, target)?;
    scan_one(alloc, of, table, &spans, &part.filter, tally)
}
