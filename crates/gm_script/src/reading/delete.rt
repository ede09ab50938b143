// `delete NAME ID`
ghost use Rattle.std.specs.Prelude.{IfOk};
ghost use Rattle.gm_script.specs.Order.{order_of};
ghost use Rattle.gm_script.specs.Reading.{Reads, delete_at, delete_of};
ghost use Rattle.gm_script.specs.Suits.{Suits, SuitsAt};

use super::type_for;
use crate::fault::refused;
use crate::{Command, LineFault};
use gm_base::{Code, FeatureId, IdFault};
use gm_types::{FeatureType, TypeList};
use std::alloc::Global;

#[tactic(auto, unfolding(crate::specs::Reading::delete_of))]
pub(crate) fn read_delete(
    alloc: Global,
    types: &TypeList,
    name: &[u8],
    id: &[u8],
) -> Result<Command, LineFault>
    ensures reads { Reads (delete_of types.now name.now id.now) result }
    ensures suits { IfOk result (λ c. Suits types.now (order_of c)) }
{
    let (type_number, of) = type_for(types, name, id)?;
    read_identifier(alloc, type_number, of, id)
}

// An identifier of a feature of the type with this number.
fn read_identifier(
    alloc: Global,
    type_number: u16,
    of: &FeatureType,
    id: &[u8],
) -> Result<Command, LineFault>
    ensures reads { Reads (delete_at type_number id.now) result }
    ensures suits { SuitsAt type_number of.now result }
{
    // This read serves only the proof.
    let _number = of.number();
    match FeatureId::of(alloc, id) {
        Ok(id) => Ok(Command::Delete(type_number, id)),
        Err(IdFault::Form) => Err(refused(Code::E12)),
        Err(IdFault::NoMemory) => Err(LineFault::NoMemory),
    }
}
