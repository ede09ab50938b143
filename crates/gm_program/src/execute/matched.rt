// The features of a filter, for commands that act on them.
ghost use Rattle.std.specs.Prelude.{◌≡◌, IfOk};
ghost use Rattle.gm_engine_rows.specs.State.{State};
ghost use Rattle.gm_filter.specs.Suitability.{Suits as SuitsType};
ghost use Rattle.gm_filter.specs.Tree.{tree};
ghost use Rattle.gm_script.specs.Order.{asked_by};
ghost use Rattle.gm_script.specs.Suits.{IsHint};
ghost use Rattle.gm_program.specs.Matched.{IsMatched};
ghost use Rattle.gm_program.specs.Step.{plain};
ghost use Rattle.gm_program.specs.Store.{IsTypeOf, HasType};

use super::parts::read_plan;
use super::plan::{Planned, plan_for};
use gm_base::{Code, NoMemory};
use gm_feature::FeatureList;
use gm_filter::Filter;
use gm_script::Ask;
use gm_strategy::{parts_are_served, parts_find_all};
use gm_table::Sorted;
use gm_types::FeatureType;
use std::alloc::Global;

/// What is found for a command that acts on the features of a filter.
#[derive(Drop)]
pub(super) enum Matched {
    Refused(Code),

    /// The features, each once, and how many rows were examined for them.
    Features(FeatureList, u64),
}

/// The number of ranges that a question without words asks for.
const TARGET: u64 = 2_000;

/// A question without words.
pub(super) fn plainly(type_number: u16, filter: Filter) -> Ask
    ensures { asked_by result ≡ plain type_number (tree filter) }
{
    Ask {
        number: type_number,
        hint: None,
        target: TARGET,
        filter,
    }
}

/// The features of this type that a question asks for.
pub(super) fn matching<B: Sorted>(
    alloc: Global,
    of: &FeatureType,
    ask: &Ask,
    table: &B,
    tally: &mut B::Tally,
) -> Result<Matched, NoMemory>
    requires typed { HasType of.now (B.rows table.now) }
    requires numbered { of.now.number ≡ (asked_by ask.now).number }
    requires suits { SuitsType of.now (tree ask.now.filter) }
    requires hint { IsHint of.now ask.now.hint }
    ensures { (s : State) → IsTypeOf s of.now (B.rows table.now)
        → IfOk result (IsMatched s of.now (asked_by ask.now)
        (B.Tally.number tally.old) (B.Tally.number tally.new)) }
{
    parts_are_served();
    parts_find_all();
    match plan_for(alloc, of, ask)? {
        Planned::Refused(code) => Ok(Matched::Refused(code)),
        Planned::Parts(plan, target) => {
            let read = read_plan(alloc, of, plan.as_slice(), target, table, tally)?;
            let examined = read.examined;
            let features = read.found.into_features(alloc)?;
            Ok(Matched::Features(features, examined))
        }
    }
}
