// `put NAME ROW`
ghost use Rattle.std.specs.Prelude.{IfOk};
ghost use Rattle.gm_rows.specs.Reader.{row_of};
ghost use Rattle.gm_script.specs.Order.{order_of};
ghost use Rattle.gm_script.specs.Reading.{Reads, put_of, put_read};
ghost use Rattle.gm_script.specs.Suits.{Suits, SuitsAt};

use super::type_for;
use crate::fault::row_fault;
use crate::{Command, LineFault};
use gm_rows::read_row;
use gm_types::{FeatureType, TypeList};
use std::alloc::Global;

#[tactic(auto, unfolding(crate::specs::Reading::put_of))]
pub(crate) fn read_put(
    alloc: Global,
    types: &TypeList,
    name: &[u8],
    row: &[u8],
) -> Result<Command, LineFault>
    ensures reads { Reads (put_of types.now name.now row.now) result }
    ensures suits { IfOk result (λ c. Suits types.now (order_of c)) }
{
    let (type_number, of) = type_for(types, name, row)?;
    read_feature(alloc, type_number, of, row)
}

// A row of the type with this number.
fn read_feature(
    alloc: Global,
    type_number: u16,
    of: &FeatureType,
    row: &[u8],
) -> Result<Command, LineFault>
    ensures reads { Reads (put_read type_number (row_of of.now row.now)) result }
    ensures suits { SuitsAt type_number of.now result }
{
    match read_row(alloc, of, row) {
        Ok(feature) => Ok(Command::Put(type_number, feature)),
        Err(why) => Err(row_fault(why)),
    }
}
