// `describe NAME`
ghost use Rattle.std.specs.Prelude.{IfOk};
ghost use Rattle.gm_script.specs.Order.{order_of};
ghost use Rattle.gm_script.specs.Reading.{Reads, describe_of};
ghost use Rattle.gm_script.specs.Suits.{Suits};

use super::type_named;
use crate::fault::refused;
use crate::{Command, LineFault};
use gm_base::Code;
use gm_types::{TypeList, is_name};

#[tactic(auto, unfolding(crate::specs::Reading::describe_of))]
pub(crate) fn read_describe(
    types: &TypeList,
    name: &[u8],
    more: &[u8],
) -> Result<Command, LineFault>
    ensures reads { Reads (describe_of types.now name.now more.now) result }
    ensures suits { IfOk result (λ c. Suits types.now (order_of c)) }
{
    if !is_name(name) || !more.is_empty() {
        return Err(refused(Code::E04));
    }
    match type_named(types, name) {
        Some((type_number, _)) => Ok(Command::Describe(type_number)),
        None => Err(refused(Code::E06)),
    }
}
