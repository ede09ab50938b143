// `create NAME SPEC`
ghost use Rattle.std.specs.Prelude.{◌≡◌, ◌≤◌, length, None, IfOk};
ghost use Rattle.gm_types.specs.TypeList.{number_of_name};
ghost use Rattle.gm_script.specs.Order.{order_of};
ghost use Rattle.gm_script.specs.Reading.{Reads, create_of, create_type};
ghost use Rattle.gm_script.specs.Suits.{Suits, most_types};

use crate::fault::refused;
use crate::{Command, LineFault};
use gm_base::Code;
use gm_types::{FeatureType, SpecFault, TypeList, is_name, read_spec};
use std::alloc::Global;

/// The greatest number of types.
const TYPE_LIMIT: usize = 100;

#[tactic(auto, unfolding(crate::specs::Reading::create_of))]
pub(crate) fn read_create(
    alloc: Global,
    types: &TypeList,
    name: &[u8],
    spec: &[u8],
) -> Result<Command, LineFault>
    requires { length types.now ≤ most_types }
    ensures reads { Reads (create_of types.now name.now spec.now) result }
    ensures suits { IfOk result (λ c. Suits types.now (order_of c)) }
{
    if !is_name(name) || spec.is_empty() {
        return Err(refused(Code::E04));
    }
    if types.number_of(name).is_some() {
        return Err(refused(Code::E05));
    }
    match read_spec(alloc, name, types.len() as u16, spec) {
        Ok(of) => with_room(types, of),
        Err(SpecFault::Spec) => Err(refused(Code::E07)),
        Err(SpecFault::TooMany) => Err(refused(Code::E19)),
        Err(SpecFault::NoMemory) => Err(LineFault::NoMemory),
    }
}

// A further type, where there is room for one.
fn with_room(types: &TypeList, of: FeatureType) -> Result<Command, LineFault>
    requires count { length types.now ≤ most_types }
    requires number { of.number ≡ length types.now }
    requires name { number_of_name types.now of.name ≡ None }
    ensures reads { Reads (create_type types.now of) result }
    ensures suits { IfOk result (λ c. Suits types.now (order_of c)) }
{
    if types.len() < TYPE_LIMIT {
        // This read serves only the proof.
        let _attributes = of.attributes();
        Ok(Command::Create(of))
    } else {
        Err(refused(Code::E19))
    }
}
