// `remove NAME FILTER`
ghost use Rattle.std.specs.Prelude.{IfOk};
ghost use Rattle.gm_ecql.specs.Outcome.{filter_outcome};
ghost use Rattle.gm_script.specs.Order.{order_of};
ghost use Rattle.gm_script.specs.Reading.{Reads, remove_of, remove_read};
ghost use Rattle.gm_script.specs.Suits.{Suits, SuitsAt};

use super::type_for;
use crate::fault::filter_fault;
use crate::{Command, LineFault};
use gm_types::{FeatureType, TypeList};
use std::alloc::Global;

#[tactic(auto, unfolding(crate::specs::Reading::remove_of))]
pub(crate) fn read_remove(
    alloc: Global,
    types: &TypeList,
    name: &[u8],
    text: &[u8],
) -> Result<Command, LineFault>
    ensures reads { Reads (remove_of types.now name.now text.now) result }
    ensures suits { IfOk result (λ c. Suits types.now (order_of c)) }
{
    let (type_number, of) = type_for(types, name, text)?;
    read_wanted(alloc, type_number, of, text)
}

// A filter of the type with this number.
fn read_wanted(
    alloc: Global,
    type_number: u16,
    of: &FeatureType,
    text: &[u8],
) -> Result<Command, LineFault>
    ensures reads { Reads (remove_read type_number (filter_outcome of.now text.now)) result }
    ensures suits { SuitsAt type_number of.now result }
{
    match gm_ecql::read(alloc, of, text) {
        Ok(filter) => Ok(Command::Remove(type_number, filter)),
        Err(why) => Err(filter_fault(why)),
    }
}
