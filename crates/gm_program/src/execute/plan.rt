// Whether and how a question can be answered.
ghost use Rattle.std.specs.Prelude.{◌≡◌, IfOk, IfSome, true};
ghost use Rattle.gm_filter.specs.Suitability.{Suits as SuitsType};
ghost use Rattle.gm_filter.specs.Tree.{tree};
ghost use Rattle.gm_types.specs.Index.{has_index};
ghost use Rattle.gm_script.specs.Order.{asked_by};
ghost use Rattle.gm_program.specs.Plan.{IsPlanned};

use gm_base::{Code, NoMemory};
use gm_script::Ask;
use gm_strategy::{ChooseFault, Plan, choose};
use gm_types::FeatureType;
use std::alloc::Global;

/// The greatest target.
const TARGET_LIMIT: u64 = 10_000;

/// What is read for a question.
#[derive(Drop)]
pub(super) enum Planned {
    Refused(Code),

    /// Parts, each with that target.
    Parts(Plan, u32),
}

/// The parts of the plan of a question, or why there is none.
pub(super) fn plan_for(alloc: Global, of: &FeatureType, ask: &Ask) -> Result<Planned, NoMemory>
    requires suits { SuitsType of.now (tree ask.now.filter) }
    requires hint { IfSome ask.now.hint (λ kind. has_index of.now kind ≡ true) }
    ensures { IfOk result (IsPlanned of.now (asked_by ask.now)) }
{
    let plan = match choose(alloc, of, &ask.filter, ask.hint) {
        Ok(plan) => plan,
        Err(ChooseFault::NotApplicable) => return Ok(Planned::Refused(Code::E18)),
        Err(ChooseFault::NoMemory) => return Err(NoMemory),
    };
    if !(1..=TARGET_LIMIT).contains(&ask.target) {
        return Ok(Planned::Refused(Code::E19));
    }
    Ok(Planned::Parts(plan, ask.target as u32))
}
