// User data, read from a specification.
ghost use Rattle.std.specs.Prelude.{Some};
ghost use Rattle.gm_types.specs.Halt.{Reads, Adds};
ghost use Rattle.gm_types.specs.Reader as spec;

use crate::halt::Halt;
use crate::parts::{cut_once, trimmed};
use crate::words::{bare_text, key_text, quotable_text};
use crate::{DataList, Datum};
use gm_base::{Items, Text};
use std::alloc::Global;

// What stands behind the first quote of a value.
fn quoted_text(alloc: Global, rest: &[u8]) -> Result<Text, Halt>
    ensures { Reads (spec.quoted_value rest.now) result }
{
    if rest.is_empty() {
        return Err(Halt::Broken);
    }
    let len = rest.len() - 1;
    if rest[len] != b'\'' {
        return Err(Halt::Broken);
    }
    quotable_text(alloc, &rest[..len])
}

// A value, bare or in quotes.
#[tactic(auto, unfolding(crate::specs::Reader::value_of))]
fn read_value(alloc: Global, text: &[u8]) -> Result<Text, Halt>
    ensures { Reads (spec.value_of text.now) result }
{
    let (first, rest) = text.split_first().ok_or(Halt::Broken)?;
    if *first == b'\'' {
        return quoted_text(alloc, rest);
    }
    bare_text(alloc, text)
}

fn datum_with(alloc: Global, key: &[u8], value: &[u8]) -> Result<Datum, Halt>
    ensures { Reads (spec.datum_with key.now (spec.value_of value.now)) result }
{
    let value = read_value(alloc, value)?;
    let key = key_text(alloc, key)?;
    Ok(Datum { key, value })
}

// A user datum between two commas.
#[tactic(auto, unfolding(crate::specs::Reader::datum_of))]
fn read_datum(alloc: Global, part: &[u8]) -> Result<Datum, Halt>
    ensures { Reads (spec.datum_of part.now) result }
{
    let (key, value) = cut_once(trimmed(part), b'=').ok_or(Halt::Broken)?;
    datum_with(alloc, key, value)
}

fn push_datum(alloc: Global, list: &mut DataList, part: &[u8]) -> Result<(), Halt>
    ensures { Adds (spec.datum_of part.now) list.old list.new result }
{
    let datum = read_datum(alloc, part)?;
    list.push(datum)?;
    Ok(())
}

/// The user data of a specification, with commas between them.
pub(crate) fn read_data(alloc: Global, text: &[u8]) -> Result<DataList, Halt>
    ensures { Reads (spec.data_of (Some text.now)) result }
{
    let mut list = Items::new(alloc);
    let mut rest = text;
    'parts: loop {
        let Some((part, behind)) = cut_once(rest, b',') else {
            push_datum(alloc, &mut list, rest)?;
            return Ok(list);
        };
        push_datum(alloc, &mut list, part)?;
        rest = behind;
    }
}
