// Bytes to features.
ghost use Rattle.std.specs.Prelude.{◌≡◌, Some, None, IfOk, IfSome, IfNone, map};
ghost use Rattle.gm_feature.specs.declared.feature.Feature.{Feature};
ghost use Rattle.gm_feature.specs.Feature.{Fits};
ghost use Rattle.gm_feature.specs.Reader.{Gives, feature_from, identifier_from, values_from};
ghost use Rattle.gm_feature.specs.Reader.{value_from, content_from, text_from, truth_from};
ghost use Rattle.gm_feature.specs.Reader.{instant_from};
ghost use Rattle.gm_feature.specs.Writer.{feature_bytes};

use crate::fit::{dates_fit, has_text_form};
use crate::halt::Halt;
use crate::lists::geometry_of;
use crate::number::{i32_of, i64_of, short_string_of, string_of};
use crate::{Feature, Value, Values};
use gm_base::{FeatureId, IdFault, Items, NoMemory, Text};
use gm_calendar::Instant;
use gm_types::{Attribute, FeatureType, Kind};
use std::alloc::Global;

/// The feature that fits the type and has these bytes, if there is one. docs/LANGUAGE.md lays them
/// out.
pub fn from_bytes(
    alloc: Global,
    of: &FeatureType,
    bytes: &[u8],
) -> Result<Option<Feature>, NoMemory>
    // What is found fits, and has these bytes.
    ensures found { IfOk result (λ o. IfSome o (λ f.
        Fits of.now f × (bytes.now ≡ feature_bytes f))) }
    // What fits and has these bytes is found.
    ensures only { (f : Feature) → Fits of.now f → bytes.now ≡ feature_bytes f
        → IfOk result (λ o. o ≡ Some f) }
    // Where nothing is found, no fitting feature has these bytes.
    ensures none { IfOk result (λ o. IfNone o ((f : Feature) → Fits of.now f
        → ¬ (bytes.now ≡ feature_bytes f))) }
    ensures value { IfOk result (λ o. o ≡ feature_from of.now bytes.now) }
{
    match feature_of(alloc, of, bytes) {
        Ok(feature) => Ok(Some(feature)),
        Err(Halt::Refused) => Ok(None),
        Err(Halt::NoMemory) => Err(NoMemory),
    }
}

#[tactic(auto, unfolding(crate::specs::Reader::feature_from))]
fn feature_of(alloc: Global, of: &FeatureType, bytes: &[u8]) -> Result<Feature, Halt>
    ensures { Gives (λ f. f) result (feature_from of.now bytes.now) }
{
    let (id, rest) = identifier_of(alloc, bytes)?;
    let (values, rest) = values_of(alloc, of.attributes().as_slice(), rest)?;
    let ended = rest.is_empty();
    if ended && dates_fit(of, values.as_slice()) {
        return Ok(Feature { id, values });
    }
    Err(Halt::Refused)
}

#[tactic(auto, unfolding(crate::specs::Reader::identifier_from))]
fn identifier_of(alloc: Global, bytes: &[u8]) -> Result<(FeatureId, &[u8]), Halt>
    ensures { Gives (λ x. (x.0, x.1.now)) result (identifier_from bytes.now) }
{
    let (text, rest) = short_string_of(bytes)?;
    match FeatureId::of(alloc, text) {
        Ok(id) => Ok((id, rest)),
        Err(IdFault::Form) => Err(Halt::Refused),
        Err(IdFault::NoMemory) => Err(Halt::NoMemory),
    }
}

fn values_of<'a>(
    alloc: Global,
    attributes: &[Attribute],
    bytes: &'a [u8],
) -> Result<(Values, &'a [u8]), Halt>
    ensures { Gives (λ x. (x.0, x.1.now)) result
        (values_from (map (λ attribute. attribute.kind) attributes.now) bytes.now) }
{
    let mut values = Vec::with_capacity(alloc, attributes.len())?;
    let mut rest = bytes;
    'values: for attribute in attributes {
        let (value, after) = value_of(alloc, attribute.kind, rest)?;
        values.push(value)?;
        rest = after;
    }
    Ok((Items::from_vec(values), rest))
}

#[tactic(auto, unfolding(crate::specs::Reader::value_from))]
fn value_of(alloc: Global, kind: Kind, bytes: &[u8]) -> Result<(Value, &[u8]), Halt>
    ensures { Gives (λ x. (x.0, x.1.now)) result (value_from kind bytes.now) }
{
    match bytes {
        [] => Err(Halt::Refused),
        [0, rest @ ..] => Ok((Value::Null, rest)),
        [1, rest @ ..] => content_of(alloc, kind, rest),
        [_, ..] => Err(Halt::Refused),
    }
}

fn content_of(alloc: Global, kind: Kind, bytes: &[u8]) -> Result<(Value, &[u8]), Halt>
    ensures { Gives (λ x. (x.0, x.1.now)) result (content_from kind bytes.now) }
{
    match kind {
        Kind::Text => {
            let (text, rest) = text_of(alloc, bytes)?;
            Ok((Value::Text(text), rest))
        }
        Kind::Integer => {
            let (number, rest) = i32_of(bytes)?;
            Ok((Value::Integer(number), rest))
        }
        Kind::Long => {
            let (number, rest) = i64_of(bytes)?;
            Ok((Value::Long(number), rest))
        }
        Kind::Boolean => {
            let (truth, rest) = truth_of(bytes)?;
            Ok((Value::Boolean(truth), rest))
        }
        Kind::Date => match instant_of(bytes) {
            Ok((at, rest)) => Ok((Value::Date(at), rest)),
            Err(halt) => Err(halt),
        },
        Kind::Geo(shape) => {
            let (geometry, rest) = geometry_of(alloc, shape, bytes)?;
            Ok((Value::Geo(geometry), rest))
        }
    }
}

#[tactic(auto, unfolding(crate::specs::Reader::text_from))]
fn text_of(alloc: Global, bytes: &[u8]) -> Result<(Text, &[u8]), Halt>
    ensures { Gives (λ x. (x.0, x.1.now)) result (text_from bytes.now) }
{
    let (text, rest) = string_of(bytes)?;
    if !has_text_form(text) {
        return Err(Halt::Refused);
    }
    let Ok(text) = str::from_utf8(text) else {
        return Err(Halt::Refused);
    };
    match Text::from_str(alloc, text) {
        Ok(text) => Ok((text, rest)),
        Err(NoMemory) => Err(Halt::NoMemory),
    }
}

#[tactic(auto, unfolding(crate::specs::Reader::truth_from))]
fn truth_of(bytes: &[u8]) -> Result<(bool, &[u8]), Halt>
    ensures { Gives (λ x. (x.0, x.1.now)) result (truth_from bytes.now) }
{
    match bytes {
        [] => Err(Halt::Refused),
        [0, rest @ ..] => Ok((false, rest)),
        [1, rest @ ..] => Ok((true, rest)),
        [_, ..] => Err(Halt::Refused),
    }
}

#[tactic(auto, unfolding(crate::specs::Reader::instant_from))]
fn instant_of(bytes: &[u8]) -> Result<(Instant, &[u8]), Halt>
    ensures { Gives (λ x. (x.0, x.1.now)) result (instant_from bytes.now) }
{
    let (ms, rest) = i64_of(bytes)?;
    match Instant::of(ms) {
        None => Err(Halt::Refused),
        Some(at) => Ok((at, rest)),
    }
}
