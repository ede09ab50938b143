// Which features fit a type.
ghost use Rattle.std.specs.Prelude.{◌≡◌, ◌↔◌, IsTrue, map};
ghost use Rattle.std.specs.List.{list_all};
ghost use Rattle.gm_feature.specs.Feature as spec;
ghost use Rattle.gm_feature.specs.Feature.{Fits};
ghost use Rattle.gm_feature.specs.Value as value_spec;

use crate::{Feature, Value, has_shape};
use gm_calendar::{Period, bin_of};
use gm_geom::check;
use gm_types::{Attribute, FeatureType, IndexKind, Kind};

/// The greatest number of bytes of a text.
pub const TEXT_LIMIT: usize = 1_048_576;

/// Whether a feature fits a type: it has a value for each attribute, null or a sound one of the
/// attribute's kind, and a default date as `dates_fit` asks. It takes no memory.
pub fn fits(of: &FeatureType, feature: &Feature) -> bool
    ensures test { result ≡ spec.fits of.now feature.now }
    ensures fact { IsTrue result ↔ Fits of.now feature.now }
{
    let values = feature.values.as_slice();
    // Read for the proof alone: the type of an identifier says that it is one.
    let _identifier = feature.id.as_bytes();
    values_fit(of.attributes().as_slice(), values) && dates_fit(of, values)
}

fn values_fit(attributes: &[Attribute], values: &[Value]) -> bool
    ensures { result
        ≡ spec.values_fit (map (λ attribute. attribute.kind) attributes.now) values.now }
{
    if attributes.len() != values.len() {
        return false;
    }
    'values: for (number, value) in values.iter().enumerate() {
        if !value_fits(attributes[number].kind, value) {
            return false;
        }
    }
    true
}

/// Whether an attribute of a kind may hold a value: null, or a sound one of the kind.
pub fn value_fits(kind: Kind, value: &Value) -> bool
    ensures { result ≡ value_spec.value_fits kind value.now }
{
    is_of_kind(kind, value) && is_sound(value)
}

fn is_of_kind(kind: Kind, value: &Value) -> bool
    ensures { result ≡ value_spec.is_of_kind kind value.now }
{
    match value {
        Value::Null => true,
        Value::Text(_) => matches!(kind, Kind::Text),
        Value::Integer(_) => matches!(kind, Kind::Integer),
        Value::Long(_) => matches!(kind, Kind::Long),
        Value::Boolean(_) => matches!(kind, Kind::Boolean),
        Value::Date(_) => matches!(kind, Kind::Date),
        Value::Geo(geometry) => match kind {
            Kind::Geo(shape) => has_shape(shape, geometry),
            _ => false,
        },
    }
}

// Whether a text has the form of one, and a geometry is kept. Every number and instant is sound:
// it is read for the proof alone, which sees the range of its type.
fn is_sound(value: &Value) -> bool
    ensures { result ≡ value_spec.is_sound value.now }
{
    match value {
        Value::Null => true,
        Value::Text(text) => has_text_form(text.as_bytes()),
        Value::Integer(number) => {
            let _range = *number;
            true
        }
        Value::Long(number) => {
            let _range = *number;
            true
        }
        Value::Boolean(_) => true,
        Value::Date(at) => {
            let _range = at.ms();
            true
        }
        Value::Geo(geometry) => check(geometry).is_ok(),
    }
}

/// Whether bytes have the length of a text and no 0x00.
pub fn has_text_form(bytes: &[u8]) -> bool
    ensures { result ≡ value_spec.has_text_form bytes.now }
{
    !bytes.is_empty() && bytes.len() <= TEXT_LIMIT && has_no_zero(bytes)
}

fn has_no_zero(bytes: &[u8]) -> bool
    ensures { result ≡ list_all value_spec.is_no_zero bytes.now }
{
    bytes.iter().all(|byte| *byte != 0)
}

/// Whether the default date is null or in a bin, where an index over time is enabled.
pub fn dates_fit(of: &FeatureType, values: &[Value]) -> bool
    ensures { result ≡ spec.dates_fit of.now values.now }
{
    if !has_time_index(of) {
        return true;
    }
    match of.default_date() {
        None => true,
        Some(attribute) => has_bin(of.period(), values, attribute),
    }
}

fn has_time_index(of: &FeatureType) -> bool
    ensures { result ≡ spec.has_time_index of.now }
{
    of.has(IndexKind::Z3) || of.has(IndexKind::Xz3)
}

fn has_bin(period: Period, values: &[Value], attribute: u16) -> bool
    ensures { result ≡ spec.has_bin period (spec.value_in values.now attribute) }
{
    match values.get(attribute as usize) {
        Some(Value::Date(at)) => bin_of(period, *at).is_some(),
        _ => true,
    }
}
