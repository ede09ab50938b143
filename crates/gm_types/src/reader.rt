// Specifications, read.
ghost use Rattle.std.specs.Prelude.{◌≡◌, ◌&&◌, true, position, count_by};
ghost use Rattle.std.specs.Prelude.{Some, IfOk};
ghost use Rattle.gm_types.specs.Answer.{OutlineReads};
ghost use Rattle.gm_types.specs.Datum.{datum_keys};
ghost use Rattle.gm_types.specs.Facts.{AreFactsOf};
ghost use Rattle.gm_types.specs.FeatureType.{IsOutline, IsValid};
ghost use Rattle.gm_types.specs.Kind as kinds;
ghost use Rattle.gm_types.specs.Outline.{outlined};
ghost use Rattle.gm_types.specs.Reader as spec;
ghost use Rattle.gm_types.specs.Specification.{names_of};
ghost use Rattle.gm_types.specs.Words.{are_distinct, is_name};

use crate::attribute_reader::{is_geometry, read_attributes, read_stars};
use crate::data_reader::read_data;
use crate::distinct::are_distinct;
use crate::facts::{Facts, facts_of};
use crate::halt::Halt;
use crate::outline::Outline;
use crate::parts::cut_once;
use crate::words::name_text;
use crate::{Attribute, AttributeList, DataList, FeatureType, SpecFault};
use gm_base::{Items, NoMemory};
use std::alloc::Global;

/// The greatest number of attributes of a type.
pub const ATTRIBUTE_LIMIT: usize = 64;

fn first_star(stars: &[bool]) -> Option<usize>
    ensures { result ≡ position spec.is_set stars.now }
{
    stars.iter().position(|star| *star)
}

fn count_stars(stars: &[bool]) -> usize
    ensures { result ≡ count_by spec.is_set stars.now }
{
    stars.iter().filter(|star| **star).count()
}

fn first_geometry(attributes: &[Attribute]) -> Option<usize>
    ensures { result ≡ position (λ attribute. kinds.is_geometry attribute.kind) attributes.now }
{
    attributes
        .iter()
        .position(|attribute| is_geometry(attribute.kind))
}

// Whether the attribute with a star, if there is one, is a geometry.
fn stands_on_geometry(attributes: &[Attribute], star: Option<usize>) -> bool
    ensures { result ≡ spec.stands_on_geometry attributes.now star }
{
    match star {
        None => true,
        Some(place) => match attributes.get(place) {
            Some(attribute) => is_geometry(attribute.kind),
            None => false,
        },
    }
}

fn stars_fit(stars: &[bool], attributes: &[Attribute]) -> bool
    ensures { result ≡ spec.stars_fit stars.now attributes.now }
{
    count_stars(stars) <= 1 && stands_on_geometry(attributes, first_star(stars))
}

fn geometry_place(stars: &[bool], attributes: &[Attribute]) -> Option<usize>
    ensures { result ≡ spec.geometry_place stars.now attributes.now }
{
    match first_star(stars) {
        Some(place) => Some(place),
        None => first_geometry(attributes),
    }
}

fn starred_outline(
    alloc: Global,
    name: &[u8],
    number: u16,
    stars: &[bool],
    attributes: AttributeList,
    user_data: DataList,
) -> Result<Outline, Halt>
    requires { is_name name.now ≡ true }
    ensures { OutlineReads (spec.outline_with name.now number stars.now (Some attributes)
        (Some user_data)) result }
{
    if !stars_fit(stars, attributes.as_slice()) {
        return Err(Halt::Broken);
    }
    let geometry = geometry_place(stars, attributes.as_slice());
    let name = name_text(alloc, name)?;
    Ok(Outline {
        name,
        number,
        attributes,
        user_data,
        geometry,
    })
}

fn outline_with(
    alloc: Global,
    name: &[u8],
    number: u16,
    text: &[u8],
    user_data: DataList,
) -> Result<Outline, Halt>
    requires { is_name name.now ≡ true }
    ensures { OutlineReads (spec.outline_with name.now number (spec.stars_of text.now)
        (spec.attributes_of text.now) (Some user_data)) result }
{
    let attributes = read_attributes(alloc, text)?;
    let stars = read_stars(alloc, text)?;
    starred_outline(alloc, name, number, stars.as_slice(), attributes, user_data)
}

#[tactic(auto, unfolding(crate::specs::Reader::outline_of))]
fn read_outline(alloc: Global, name: &[u8], number: u16, text: &[u8]) -> Result<Outline, Halt>
    requires { is_name name.now ≡ true }
    ensures { OutlineReads (spec.outline_of name.now number text.now) result }
{
    let Some((attributes, behind)) = cut_once(text, b';') else {
        return outline_with(alloc, name, number, text, Items::new(alloc));
    };
    let user_data = read_data(alloc, behind)?;
    outline_with(alloc, name, number, attributes, user_data)
}

// Whether the names of attributes and the keys of user data stand once each.
fn is_distinct(alloc: Global, outline: &Outline) -> Result<bool, NoMemory>
    ensures { IfOk result (λ distinct. distinct
        ≡ (are_distinct (names_of (outlined outline.now))
        && are_distinct (datum_keys outline.now.user_data))) }
{
    if !are_distinct(alloc, outline.attributes.as_slice())? {
        return Ok(false);
    }
    are_distinct(alloc, outline.user_data.as_slice())
}

fn limited(outline: Outline, facts: Facts) -> Result<FeatureType, SpecFault>
    requires named { is_name outline.name ≡ true }
    requires valid { IsValid (outlined outline) }
    requires facts { AreFactsOf (outlined outline) facts }
    ensures read { spec.IsReadAs (Some (outlined outline)) result }
    ensures same { IfOk result (λ t. t ≡ outlined outline) }
{
    if outline.attributes.len() > ATTRIBUTE_LIMIT {
        return Err(SpecFault::TooMany);
    }
    Ok(FeatureType::new(outline, facts))
}

fn checked(alloc: Global, outline: Outline) -> Result<FeatureType, SpecFault>
    requires named { is_name outline.name ≡ true }
    requires outline { IsOutline (outlined outline) }
    ensures read { spec.IsReadAs (spec.consistent_only (Some (outlined outline))) result }
    ensures same { IfOk result (λ t. t ≡ outlined outline) }
{
    match is_distinct(alloc, &outline) {
        Err(NoMemory) => return Err(SpecFault::NoMemory),
        Ok(false) => return Err(SpecFault::Spec),
        Ok(true) => {}
    }
    let facts = facts_of(&outline).ok_or(SpecFault::Spec)?;
    limited(outline, facts)
}

/// The type that a specification gives to a name and a number. `docs/SPECIFICATIONS.md` has the
/// rules of specifications. A name is a letter or `_`, and up to 63 letters, digits or `_`.
pub fn read_spec(
    alloc: Global,
    name: &[u8],
    number: u16,
    text: &[u8],
) -> Result<FeatureType, SpecFault>
    requires { is_name name.now ≡ true }
    ensures read { spec.IsReadAs (spec.specification_of name.now number text.now) result }
    ensures named { IfOk result (λ t. (t.name ≡ name.now) × (t.number ≡ number)) }
{
    match read_outline(alloc, name, number, text) {
        Err(Halt::Broken) => Err(SpecFault::Spec),
        Err(Halt::NoMemory) => Err(SpecFault::NoMemory),
        Ok(outline) => checked(alloc, outline),
    }
}
