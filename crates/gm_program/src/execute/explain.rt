// `explain`
ghost use Rattle.std.specs.Prelude.{◌≡◌, ◌≤◌, ◌<◌, ◌^◌, ◌++◌, ℕ, All, map, length, IfOk, OnOk};
ghost use Rattle.gm_engine_rows.specs.State.{State};
ghost use Rattle.gm_script.specs.Order.{asked_by};
ghost use Rattle.gm_script.specs.Suits.{IsQuestion};
ghost use Rattle.gm_strategy.specs.Choice.{IsServed, chosen_of};
ghost use Rattle.gm_table.specs.Sorted.{Rows};
ghost use Rattle.gm_program.specs.Question.{part_lines, plan_lines as lines_of_plan};
ghost use Rattle.gm_program.specs.Serve.{Executes};
ghost use Rattle.gm_program.specs.Step.{explain_step};
ghost use Rattle.gm_program.specs.Store.{Holds};

use super::plan::{Planned, plan_for};
use gm_base::{Items, NoMemory, Text};
use gm_filter::TextList;
use gm_plan::{range_lines, ranges};
use gm_script::{Ask, Reply, part_line};
use gm_strategy::{Part, parts_are_served};
use gm_types::{FeatureType, TypeList};
use std::alloc::Global;

/// Tells which ranges would be read for a question.
pub(super) fn explain(alloc: Global, ask: &Ask, types: &TypeList) -> Result<Option<Reply>, NoMemory>
    requires { IsQuestion types.now (asked_by ask.now) }
    ensures { (s : State) (rows : Rows) (tally : ℕ) → tally < 2 ^ 64 → Holds s types.now rows
        → IfOk result (λ reply. Executes
        (explain_step (asked_by ask.now) s) reply types.now rows tally tally) }
{
    parts_are_served();
    let of = &types.as_slice()[usize::from(ask.number)];
    match plan_for(alloc, of, ask)? {
        Planned::Refused(code) => Ok(Some(Reply::Refusal { code, row: None })),
        Planned::Parts(plan, target) => {
            let lines = plan_lines(alloc, of, plan.as_slice(), target)?;
            Ok(Some(Reply::Explained(lines)))
        }
    }
}

// The lines of the parts of a plan.
fn plan_lines(
    alloc: Global,
    of: &FeatureType,
    parts: &[Part],
    target: u32,
) -> Result<TextList, NoMemory>
    requires served { All (IsServed of.now) (map chosen_of parts.now) }
    requires few { length parts.now ≤ 8 }
    requires least { 1 ≤ target }
    requires most { target ≤ 10000 }
    ensures { IfOk result (λ lines. lines
        ≡ lines_of_plan of.now target 1 (map chosen_of parts.now)) }
{
    let mut lines = Vec::new(alloc);
    let mut part_place = 0;
    'parts: for part in parts {
        part_place += 1;
        push_part(alloc, of, part, target, part_place, &mut lines)?;
    }
    Ok(Items::from_vec(lines))
}

// Adds the lines of the part with this place, from 1.
fn push_part(
    alloc: Global,
    of: &FeatureType,
    part: &Part,
    target: u32,
    part_place: usize,
    lines: &mut Vec<Text>,
) -> Result<(), NoMemory>
    requires served { IsServed of.now (chosen_of part.now) }
    requires least { 1 ≤ target }
    requires most { target ≤ 10000 }
    ensures { OnOk result (lines.new.items
        ≡ lines.old.items ++ part_lines of.now target part_place (chosen_of part.now)) }
{
    let of_ranges = ranges(alloc, of, part.kind, &part.filter, target)?;
    let runs = of_ranges.ranges.len();
    lines.push(part_line(
        alloc,
        of,
        part_place,
        part.kind,
        part.cost,
        of_ranges.shards,
        runs,
    )?)?;
    push_all(lines, range_lines(alloc, &of_ranges)?)
}

fn push_all(lines: &mut Vec<Text>, more: TextList) -> Result<(), NoMemory>
    ensures { OnOk result (lines.new.items ≡ lines.old.items ++ more) }
{
    'more: for line in more.into_vec() {
        lines.push(line)?;
    }
    Ok(())
}
