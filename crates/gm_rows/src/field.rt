// One field read.
ghost use Rattle.std.specs.Prelude.{◌≡◌};
ghost use Rattle.gm_calendar.specs.Spelling.{instant_of};
ghost use Rattle.gm_rows.specs.Reader as spec;
ghost use Rattle.gm_rows.specs.Reader.{Answers};
ghost use Rattle.gm_wkt.specs.Answer.{answer_of};

use crate::RowFault;
use gm_base::Text;
use gm_calendar::read_instant;
use gm_feature::{Value, has_shape, has_text_form};
use gm_types::{GeoKind, Kind};
use gm_wkt::{WktFault, read};
use std::alloc::Global;

// The value that a field of this kind spells.
pub(crate) fn read_field(alloc: Global, kind: Kind, field: &[u8]) -> Result<Value, RowFault>
    ensures { Answers (spec.value_of kind field.now) result }
{
    if field.is_empty() {
        return Ok(Value::Null);
    }
    read_some(alloc, kind, field)
}

fn read_some(alloc: Global, kind: Kind, field: &[u8]) -> Result<Value, RowFault>
    ensures { Answers (spec.value_of_some kind field.now) result }
{
    match kind {
        Kind::Text => read_text(alloc, field),
        Kind::Integer => read_integer(field),
        Kind::Long => read_long(field),
        Kind::Boolean => read_truth(field),
        Kind::Date => read_date(field),
        Kind::Geo(shape) => read_geometry(alloc, shape, field),
    }
}

// A text of a field that is not empty.
fn read_text(alloc: Global, field: &[u8]) -> Result<Value, RowFault>
    ensures { Answers (spec.read_as Value.Text (spec.text_of field.now)) result }
{
    let Ok(valid) = str::from_utf8(field) else {
        return Err(RowFault::Value);
    };
    if !has_text_form(field) {
        return Err(RowFault::Value);
    }
    match Text::from_str(alloc, valid) {
        Ok(text) => Ok(Value::Text(text)),
        Err(_) => Err(RowFault::NoMemory),
    }
}

fn integer(field: &[u8]) -> Option<i32>
    ensures { result ≡ spec.integer_of 31 field.now }
{
    let Ok(text) = str::from_utf8(field) else {
        return None;
    };
    text.parse::<i32>().ok()
}

fn read_integer(field: &[u8]) -> Result<Value, RowFault>
    ensures { Answers (spec.read_as Value.Integer (spec.integer_of 31 field.now)) result }
{
    let number = integer(field).ok_or(RowFault::Value)?;
    Ok(Value::Integer(number))
}

fn long(field: &[u8]) -> Option<i64>
    ensures { result ≡ spec.integer_of 63 field.now }
{
    let Ok(text) = str::from_utf8(field) else {
        return None;
    };
    text.parse::<i64>().ok()
}

fn read_long(field: &[u8]) -> Result<Value, RowFault>
    ensures { Answers (spec.read_as Value.Long (spec.integer_of 63 field.now)) result }
{
    let number = long(field).ok_or(RowFault::Value)?;
    Ok(Value::Long(number))
}

fn truth(field: &[u8]) -> Option<bool>
    ensures { result ≡ spec.truth_of field.now }
{
    if field.eq_ignore_ascii_case(b"true") {
        return Some(true);
    }
    if field.eq_ignore_ascii_case(b"false") {
        return Some(false);
    }
    None
}

fn read_truth(field: &[u8]) -> Result<Value, RowFault>
    ensures { Answers (spec.read_as Value.Boolean (spec.truth_of field.now)) result }
{
    let truth = truth(field).ok_or(RowFault::Value)?;
    Ok(Value::Boolean(truth))
}

fn read_date(field: &[u8]) -> Result<Value, RowFault>
    ensures { Answers (spec.read_as Value.Date (instant_of field.now)) result }
{
    let at = read_instant(field).ok_or(RowFault::Value)?;
    Ok(Value::Date(at))
}

fn read_geometry(alloc: Global, shape: GeoKind, field: &[u8]) -> Result<Value, RowFault>
    ensures { Answers (spec.shaped shape (answer_of field.now)) result }
{
    match read(alloc, field) {
        Ok(geometry) => {
            if has_shape(shape, &geometry) {
                return Ok(Value::Geo(geometry));
            }
            Err(RowFault::Geometry)
        }
        Err(WktFault::Syntax) => Err(RowFault::Geometry),
        Err(WktFault::Geom(_)) => Err(RowFault::Geometry),
        Err(WktFault::NoMemory) => Err(RowFault::NoMemory),
    }
}
