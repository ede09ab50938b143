// A line as a command.
ghost use Rattle.std.specs.Prelude.{◌≡◌, ◌≤◌, length, slice_get, Some, Ok, Err, option_map};
ghost use Rattle.std.specs.Prelude.{IfOk, IfErr, IfSome};
ghost use Rattle.gm_script.specs.Order.{order_of};
ghost use Rattle.gm_script.specs.Reading as spec;
ghost use Rattle.gm_script.specs.Reading.{Reads, reading, reading_of, command_in};
ghost use Rattle.gm_script.specs.Reading.{command_of, question_of};
ghost use Rattle.gm_script.specs.Suits.{Suits, most_types};

mod asking;
mod create;
mod delete;
mod describe;
mod modify;
mod put;
mod remove;

use crate::fault::refused;
use crate::line::{is_utf8, says_nothing, without_return};
use crate::words::{past_blanks, split_word};
use crate::{Command, LineFault};
use asking::read_ask;
use create::read_create;
use delete::read_delete;
use describe::read_describe;
use gm_base::Code;
use gm_types::{FeatureType, TypeList, is_name};
use modify::read_modify;
use put::read_put;
use remove::read_remove;
use std::alloc::Global;

/// The greatest number of bytes of a line, before its 0x0A.
pub const LINE_LIMIT: usize = 1_048_576;

/// The command that a line is, for the types that there are. The line has the bytes before its
/// 0x0A; of one that is too long the first 1,048,577 are enough.
#[tactic(auto, unfolding(crate::specs::Reading::reading))]
pub fn read_line(alloc: Global, types: &TypeList, line: &[u8]) -> Result<Command, LineFault>
    requires { length types.now ≤ most_types }
    ensures reads { Reads (reading types.now line.now) result }
    ensures suits { IfOk result (λ c. Suits types.now (order_of c)) }
{
    if LINE_LIMIT < line.len() {
        return Err(refused(Code::E01));
    }
    read_text(alloc, types, without_return(line))
}

// A line that is not too long, without its end.
fn read_text(alloc: Global, types: &TypeList, text: &[u8]) -> Result<Command, LineFault>
    requires { length types.now ≤ most_types }
    ensures reads { Reads (reading_of types.now text.now) result }
    ensures suits { IfOk result (λ c. Suits types.now (order_of c)) }
{
    if says_nothing(past_blanks(text)) {
        return Ok(Command::Nothing);
    }
    if !is_utf8(text) {
        return Err(refused(Code::E02));
    }
    read_words(alloc, types, text)
}

// A text by its first word, the word behind it, and what is left.
fn read_words(alloc: Global, types: &TypeList, text: &[u8]) -> Result<Command, LineFault>
    requires { length types.now ≤ most_types }
    ensures reads { Reads (command_in types.now text.now) result }
    ensures suits { IfOk result (λ c. Suits types.now (order_of c)) }
{
    let (verb, behind) = split_word(text);
    let (name, rest) = split_word(behind);
    read_command(alloc, types, verb, name, rest)
}

fn read_command(
    alloc: Global,
    types: &TypeList,
    verb: &[u8],
    name: &[u8],
    rest: &[u8],
) -> Result<Command, LineFault>
    requires { length types.now ≤ most_types }
    ensures reads { Reads (command_of types.now verb.now name.now rest.now) result }
    ensures suits { IfOk result (λ c. Suits types.now (order_of c)) }
{
    if verb == b"create".as_slice() {
        return read_create(alloc, types, name, rest);
    }
    if verb == b"put".as_slice() {
        return read_put(alloc, types, name, rest);
    }
    if verb == b"delete".as_slice() {
        return read_delete(alloc, types, name, rest);
    }
    if verb == b"remove".as_slice() {
        return read_remove(alloc, types, name, rest);
    }
    if verb == b"modify".as_slice() {
        return read_modify(alloc, types, name, rest);
    }
    if verb == b"describe".as_slice() {
        return read_describe(types, name, rest);
    }
    read_question(alloc, types, verb, name, rest)
}

fn read_question(
    alloc: Global,
    types: &TypeList,
    verb: &[u8],
    name: &[u8],
    rest: &[u8],
) -> Result<Command, LineFault>
    requires { length types.now ≤ most_types }
    ensures reads { Reads (question_of types.now verb.now name.now rest.now) result }
    ensures suits { IfOk result (λ c. Suits types.now (order_of c)) }
{
    if verb == b"query".as_slice() {
        return Ok(Command::Query(read_ask(alloc, types, name, rest)?));
    }
    if verb == b"count".as_slice() {
        return Ok(Command::Count(read_ask(alloc, types, name, rest)?));
    }
    if verb == b"explain".as_slice() {
        return Ok(Command::Explain(read_ask(alloc, types, name, rest)?));
    }
    Err(refused(Code::E03))
}

// The type with a name, and its number, where something stands behind the name.
fn type_for<'a>(
    types: &'a TypeList,
    name: &[u8],
    rest: &[u8],
) -> Result<(u16, &'a FeatureType), LineFault>
    ensures found { IfOk result (λ found. spec.type_for types.now name.now rest.now
        ≡ Ok (found.0, found.1.now)) }
    ensures refused { IfErr result (λ why. spec.type_for types.now name.now rest.now ≡ Err why) }
    ensures there { IfOk result (λ found. slice_get types.now found.0 ≡ Some found.1.now) }
{
    if !is_name(name) || rest.is_empty() {
        return Err(refused(Code::E04));
    }
    match type_named(types, name) {
        Some(found) => Ok(found),
        None => Err(refused(Code::E06)),
    }
}

// The type with a name, and its number.
fn type_named<'a>(types: &'a TypeList, name: &[u8]) -> Option<(u16, &'a FeatureType)>
    ensures value { option_map (λ found. (found.0, found.1.now)) result
        ≡ spec.type_named types.now name.now }
    ensures there { IfSome result (λ found. slice_get types.now found.0 ≡ Some found.1.now) }
{
    let type_number = types.number_of(name)?;
    let of = types.get(type_number)?;
    Some((type_number, of))
}
