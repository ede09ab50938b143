// The lexicoded forms of literals.
ghost use Rattle.std.specs.Prelude.{◌≡◌, IfOk, Some};
ghost use Rattle.gm_lexi.specs.Lexicode.{long_bytes, bool_bytes, date_bytes};
ghost use Rattle.gm_bounds.specs.Values as spec;

use gm_base::{Bytes, NoMemory, Text};
use gm_calendar::Instant;
use gm_filter::Literal;
use gm_lexi::{put_bool, put_date, put_int, put_long, put_text};
use gm_types::Kind;
use std::alloc::Global;

// The form of a literal as a value of a kind, if it has one.
pub(crate) fn literal_form(
    alloc: Global,
    kind: Kind,
    literal: &Literal,
) -> Result<Option<Bytes>, NoMemory>
    ensures { IfOk result (λ form. form ≡ spec.literal_form kind literal.now) }
{
    match (kind, literal) {
        (Kind::Text, Literal::Text(text)) => text_form(alloc, text),
        (Kind::Integer, Literal::Number(number)) => integer_form(alloc, *number),
        (Kind::Long, Literal::Number(number)) => long_form(alloc, *number),
        (Kind::Boolean, Literal::Truth(truth)) => bool_form(alloc, *truth),
        (Kind::Date, Literal::Date(at)) => date_form(alloc, *at),
        _ => Ok(None),
    }
}

pub(crate) fn text_form(alloc: Global, text: &Text) -> Result<Option<Bytes>, NoMemory>
    ensures { IfOk result (λ form. form ≡ spec.text_form text.now) }
{
    if has_zero(text.as_bytes()) {
        return Ok(None);
    }
    let mut form = Bytes::new(alloc);
    put_text(alloc, &mut form, text)?;
    Ok(Some(form))
}

pub(crate) fn has_zero(bytes: &[u8]) -> bool
    ensures { result ≡ spec.has_zero bytes.now }
{
    bytes.iter().any(|byte| *byte == 0)
}

fn integer_form(alloc: Global, number: i64) -> Result<Option<Bytes>, NoMemory>
    ensures { IfOk result (λ form. form ≡ spec.integer_form number) }
{
    if number < i64::from(i32::MIN) || number > i64::from(i32::MAX) {
        return Ok(None);
    }
    let mut form = Bytes::new(alloc);
    put_int(alloc, &mut form, number as i32)?;
    Ok(Some(form))
}

fn long_form(alloc: Global, number: i64) -> Result<Option<Bytes>, NoMemory>
    ensures { IfOk result (λ form. form ≡ Some (long_bytes number)) }
{
    let mut form = Bytes::new(alloc);
    put_long(alloc, &mut form, number)?;
    Ok(Some(form))
}

fn bool_form(alloc: Global, truth: bool) -> Result<Option<Bytes>, NoMemory>
    ensures { IfOk result (λ form. form ≡ Some (bool_bytes truth)) }
{
    let mut form = Bytes::new(alloc);
    put_bool(alloc, &mut form, truth)?;
    Ok(Some(form))
}

fn date_form(alloc: Global, at: Instant) -> Result<Option<Bytes>, NoMemory>
    ensures { IfOk result (λ form. form ≡ Some (date_bytes at)) }
{
    let mut form = Bytes::new(alloc);
    put_date(alloc, &mut form, at)?;
    Ok(Some(form))
}
