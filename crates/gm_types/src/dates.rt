// The default date.
ghost use Rattle.std.specs.Prelude.{◌≡◌, ◌<◌, length, map, position, slice_get, None, IfSome};
ghost use Rattle.gm_types.specs.Kind as kinds;
ghost use Rattle.gm_types.specs.FeatureType.{is_date_kind};
ghost use Rattle.gm_types.specs.Dates.{IsDateNamed, IsDateSetting};
ghost use Rattle.gm_types.specs.Outline.{outlined};
ghost use Rattle.gm_types.specs.Specification.{date_named};
ghost use Rattle.gm_types.specs.Words.{same_text};

use crate::outline::Outline;
use crate::settings::setting;
use crate::{Attribute, Kind};

fn is_date(kind: Kind) -> bool
    ensures { result ≡ kinds.is_date kind }
{
    matches!(kind, Kind::Date)
}

/// The place of the attribute with a name.
pub(crate) fn place_named(attributes: &[Attribute], name: &[u8]) -> Option<usize>
    ensures value { result ≡ position
        (λ attribute. same_text attribute.name name.now) attributes.now }
    ensures within { IfSome result (λ place. place < length attributes.now) }
{
    attributes
        .iter()
        .position(|attribute| attribute.name.as_bytes() == name)
}

fn first_date(attributes: &[Attribute]) -> Option<usize>
    ensures { result ≡ position (λ attribute. kinds.is_date attribute.kind) attributes.now }
{
    attributes
        .iter()
        .position(|attribute| is_date(attribute.kind))
}

fn is_date_at(attributes: &[Attribute], place: usize) -> bool
    ensures { result ≡ is_date_kind
        (slice_get (map (λ attribute. attribute.kind) attributes.now) place) }
{
    match attributes.get(place) {
        Some(attribute) => is_date(attribute.kind),
        None => false,
    }
}

fn first_date_of(outline: &Outline) -> Option<usize>
    ensures { result ≡ date_named (outlined outline.now) None }
{
    first_date(outline.attributes.as_slice())
}

// The Date with that name, if there is one.
#[tactic(auto, unfolding(crate::specs::Specification::place_of_name))]
fn date_named(outline: &Outline, name: &[u8]) -> Option<usize>
    ensures { IsDateNamed (outlined outline.now) name.now result }
{
    let place = place_named(outline.attributes.as_slice(), name)?;
    if is_date_at(outline.attributes.as_slice(), place) {
        return Some(place);
    }
    None
}

/// The place of the default date, if there is one: None where `geomesa.index.dtg` names no Date.
pub(crate) fn default_date(outline: &Outline) -> Option<Option<usize>>
    ensures { IsDateSetting (outlined outline.now) result }
{
    let Some(name) = setting(outline, b"geomesa.index.dtg") else {
        return Some(first_date_of(outline));
    };
    let place = date_named(outline, name)?;
    Some(Some(place))
}
