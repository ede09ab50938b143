// The lexicoded forms of values.
ghost use Rattle.std.specs.Prelude.{◌≡◌, ◌≤◌, ◌++◌, [], true, is_some, unwrap_or, IfSome, OnOk};
ghost use Rattle.gm_feature.specs.Value.{is_sound};
ghost use Rattle.gm_keys.specs.Key as spec;

use gm_base::{Bytes, NoMemory};
use gm_feature::Value;
use gm_lexi::{put_bool, put_date, put_int, put_long, put_text};
use std::alloc::Global;

/// How many bytes the form of a value has, where it has one.
pub(crate) fn form_length(value: &Value) -> Option<usize>
    requires { is_sound value.now ≡ true }
    ensures some { is_some result ≡ is_some (spec.form_of value.now) }
    ensures small { IfSome result (λ length. length ≤ 1_048_577) }
{
    match value {
        Value::Null | Value::Geo(_) => None,
        Value::Text(text) => Some(text.as_bytes().len() + 1),
        Value::Integer(_) => Some(4),
        Value::Long(_) | Value::Date(_) => Some(8),
        Value::Boolean(_) => Some(1),
    }
}

/// Appends the form of a value, or nothing where it has none.
pub(crate) fn put_form(alloc: Global, into: &mut Bytes, value: &Value) -> Result<(), NoMemory>
    requires { is_sound value.now ≡ true }
    ensures { OnOk result (into.new ≡ into.old ++ unwrap_or (spec.form_of value.now) []) }
{
    match value {
        Value::Null | Value::Geo(_) => Ok(()),
        Value::Text(text) => put_text(alloc, into, text),
        Value::Integer(number) => put_int(alloc, into, *number),
        Value::Long(number) => put_long(alloc, into, *number),
        Value::Boolean(truth) => put_bool(alloc, into, *truth),
        Value::Date(at) => put_date(alloc, into, *at),
    }
}
