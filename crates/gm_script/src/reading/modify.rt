// `modify NAME ATTR LITERAL WHERE FILTER`
ghost use Rattle.std.specs.Prelude.{IfOk};
ghost use Rattle.gm_ecql.specs.Outcome.{MayHold, change_outcome, meant};
ghost use Rattle.gm_filter.specs.Suitability as filter;
ghost use Rattle.gm_filter.specs.Tree.{tree};
ghost use Rattle.gm_script.specs.Order.{order_of};
ghost use Rattle.gm_script.specs.Reading.{Reads, modify_of, modify_read, modify_with};
ghost use Rattle.gm_script.specs.Suits.{Suits, SuitsAt};

use super::type_for;
use crate::bins::keeps_bins;
use crate::fault::{filter_fault, refused};
use crate::{Command, LineFault};
use gm_base::Code;
use gm_ecql::{Change, read_change};
use gm_types::{FeatureType, TypeList};
use std::alloc::Global;

#[tactic(auto, unfolding(crate::specs::Reading::modify_of))]
pub(crate) fn read_modify(
    alloc: Global,
    types: &TypeList,
    name: &[u8],
    text: &[u8],
) -> Result<Command, LineFault>
    ensures reads { Reads (modify_of types.now name.now text.now) result }
    ensures suits { IfOk result (λ c. Suits types.now (order_of c)) }
{
    let (type_number, of) = type_for(types, name, text)?;
    read_new_value(alloc, type_number, of, text)
}

// A change of features of the type with this number.
fn read_new_value(
    alloc: Global,
    type_number: u16,
    of: &FeatureType,
    text: &[u8],
) -> Result<Command, LineFault>
    ensures reads { Reads (modify_read of.now type_number (change_outcome of.now text.now)) result }
    ensures suits { SuitsAt type_number of.now result }
{
    match read_change(alloc, of, text) {
        Ok(change) => with_bins(type_number, of, change),
        Err(why) => Err(filter_fault(why)),
    }
}

// A change, where the attribute may take the value.
fn with_bins(type_number: u16, of: &FeatureType, change: Change) -> Result<Command, LineFault>
    requires holds { MayHold of.now change.attribute change.value }
    requires suits { filter.Suits of.now (tree change.filter) }
    ensures reads { Reads (modify_with of.now type_number (meant change)) result }
    ensures suits { SuitsAt type_number of.now result }
{
    if keeps_bins(of, change.attribute, &change.value) {
        Ok(Command::Modify(type_number, change))
    } else {
        Err(refused(Code::E11))
    }
}
