// Which ranges are of one value.
ghost use Rattle.std.specs.Prelude.{◌≡◌, IfOk};
ghost use Rattle.gm_types.specs.declared.kind.Kind.TheVariants.{Text, Boolean, Date};
ghost use Rattle.gm_bounds.specs.OneValue as spec;

use crate::ByteRange;
use gm_base::NoMemory;
use gm_lexi::{after, get_date, get_text, numbers_as_places};
use gm_types::Kind;
use std::alloc::Global;

/// Whether each of the ranges is of one value of the kind: it begins with the whole lexicoded form
/// of a value, and ends where that ends which begins so.
pub fn are_of_one_value(alloc: Global, kind: Kind, ranges: &[ByteRange]) -> Result<bool, NoMemory>
    ensures { IfOk result (λ are. are ≡ spec.are_of_one_value kind ranges.now) }
{
    'members: for range in ranges {
        if !is_of_one_value(alloc, kind, range)? {
            return Ok(false);
        }
    }
    Ok(true)
}

/// The same of one range.
pub fn is_of_one_value(alloc: Global, kind: Kind, range: &ByteRange) -> Result<bool, NoMemory>
    ensures { IfOk result (λ is. is ≡ spec.is_of_one_value kind range.now) }
{
    let low = range.low.as_slice();
    if is_form(kind, low) {
        Ok(range.high == after(alloc, low)?)
    } else {
        Ok(false)
    }
}

// Whether the bytes are the whole form of a value of the kind. Any four bytes are that of an
// Integer, and any eight that of a Long.
fn is_form(kind: Kind, form: &[u8]) -> bool
    ensures { result ≡ spec.is_form kind form.now }
{
    match kind {
        Kind::Text => is_text_form(form),
        Kind::Integer => form.len() == 4,
        Kind::Long => form.len() == 8,
        Kind::Boolean => is_bool_form(form),
        Kind::Date => is_date_form(form),
        Kind::Geo(_) => false,
    }
}

fn is_text_form(form: &[u8]) -> bool
    ensures { result ≡ spec.is_form Text form.now }
{
    match get_text(form) {
        Some(length) => length + 1 == form.len(),
        None => false,
    }
}

fn is_bool_form(form: &[u8]) -> bool
    ensures { result ≡ spec.is_form Boolean form.now }
{
    matches!(form, [0] | [1])
}

fn is_date_form(form: &[u8]) -> bool
    ensures { result ≡ spec.is_form Date form.now }
{
    numbers_as_places();
    match get_date(form) {
        Some((_, length)) => length == form.len(),
        None => false,
    }
}
