// Attributes, read from a specification.
ghost use Rattle.std.specs.Prelude.{◌≡◌, find, Some, None, IfOk};
ghost use Rattle.std.specs.Option.{option_copied};
ghost use Rattle.gm_base.specs.Ascii.{colon};
ghost use Rattle.gm_types.specs.Attribute.{asks_index, attribute_from, has_option, is_cardinality};
ghost use Rattle.gm_types.specs.Attribute.{is_index_value, is_indexed, may_have};
ghost use Rattle.gm_types.specs.Kind.{is_geometry};
ghost use Rattle.gm_types.specs.Halt.{Reads, Adds};
ghost use Rattle.gm_types.specs.Parts.{parts_of};
ghost use Rattle.gm_types.specs.Reader as spec;
ghost use Rattle.gm_types.specs.Words.{same_text};

use crate::distinct::are_distinct;
use crate::halt::Halt;
use crate::kind::kind_named;
use crate::parts::{cut_once, trimmed};
use crate::words::{bare_text, is_word, key_text, name_text};
use crate::{Attribute, AttributeList, AttributeOption, Kind, OptionList};
use gm_base::{Items, NoMemory, Text};
use std::alloc::Global;

pub(crate) fn is_geometry(kind: Kind) -> bool
    ensures { result ≡ is_geometry kind }
{
    matches!(kind, Kind::Geo(_))
}

fn is_index_value(value: &[u8]) -> bool
    ensures { result ≡ is_index_value value.now }
{
    is_word(value, b"true") || is_word(value, b"full") || is_word(value, b"false")
}

fn is_cardinality(value: &[u8]) -> bool
    ensures { result ≡ is_cardinality value.now }
{
    is_word(value, b"high") || is_word(value, b"low")
}

// Whether a listed key has a value that it may have.
#[tactic(auto, unfolding(crate::specs::Attribute::may_have))]
fn may_have(kind: Kind, key: &[u8], value: &[u8]) -> bool
    ensures { result ≡ may_have kind key.now value.now }
{
    if is_word(key, b"index") {
        return is_index_value(value);
    }
    if is_word(key, b"cardinality") {
        return is_cardinality(value);
    }
    if is_word(key, b"srid") {
        return is_geometry(kind) && is_word(value, b"4326");
    }
    true
}

fn option_with(alloc: Global, kind: Kind, key: &[u8], value: &[u8]) -> Result<AttributeOption, Halt>
    ensures { Reads (spec.option_with kind key.now value.now) result }
{
    if !may_have(kind, key, value) {
        return Err(Halt::Broken);
    }
    let key = key_text(alloc, key)?;
    let value = bare_text(alloc, value)?;
    Ok(AttributeOption { key, value })
}

// `key=value`, as an attribute of a kind may have it.
#[tactic(auto, unfolding(crate::specs::Reader::option_of))]
fn read_option(alloc: Global, kind: Kind, text: &[u8]) -> Result<AttributeOption, Halt>
    ensures { Reads (spec.option_of kind text.now) result }
{
    let (key, value) = cut_once(text, b'=').ok_or(Halt::Broken)?;
    option_with(alloc, kind, key, value)
}

fn push_option(alloc: Global, kind: Kind, options: &mut OptionList, text: &[u8]) -> Result<(), Halt>
    ensures { Adds (spec.option_of kind text.now) options.old options.new result }
{
    let option = read_option(alloc, kind, text)?;
    options.push(option)?;
    Ok(())
}

// Options with colons between them.
fn read_options(alloc: Global, kind: Kind, text: &[u8]) -> Result<OptionList, Halt>
    ensures { Reads (spec.read_all (spec.option_of kind) (parts_of colon text.now)) result }
{
    let mut options = Items::new(alloc);
    let mut rest = text;
    'parts: loop {
        let Some((part, behind)) = cut_once(rest, b':') else {
            push_option(alloc, kind, &mut options, rest)?;
            return Ok(options);
        };
        push_option(alloc, kind, &mut options, part)?;
        rest = behind;
    }
}

fn option_named<'a>(options: &'a [AttributeOption], key: &[u8]) -> Option<&'a AttributeOption>
    ensures { option_copied result ≡ find (λ option. same_text option.key key.now) options.now }
{
    options.iter().find(|option| option.key.as_bytes() == key)
}

// Whether an option has that value.
#[tactic(auto, unfolding(crate::specs::Attribute::option_value))]
fn has_option(options: &[AttributeOption], key: &[u8], value: &[u8]) -> bool
    ensures { result ≡ has_option key.now value.now options.now }
{
    match option_named(options, key) {
        Some(option) => is_word(option.value.as_bytes(), value),
        None => false,
    }
}

fn asks_index(options: &[AttributeOption]) -> bool
    ensures { result ≡ asks_index options.now }
{
    has_option(options, b"index", b"true") || has_option(options, b"index", b"full")
}

fn is_indexed(kind: Kind, options: &[AttributeOption]) -> bool
    ensures { result ≡ is_indexed kind options.now }
{
    !is_geometry(kind) && asks_index(options)
}

fn attribute_from(name: Text, kind: Kind, options: OptionList) -> Attribute
    ensures { result ≡ attribute_from name kind options }
{
    let indexed = is_indexed(kind, options.as_slice());
    let high = has_option(options.as_slice(), b"cardinality", b"high");
    Attribute {
        name,
        kind,
        indexed,
        high,
        options,
    }
}

fn attribute_with(
    alloc: Global,
    name: &[u8],
    kind: Kind,
    options: OptionList,
) -> Result<Attribute, Halt>
    ensures { Reads (spec.attribute_with name.now kind (Some options)) result }
{
    if !are_distinct(alloc, options.as_slice())? {
        return Err(Halt::Broken);
    }
    let name = name_text(alloc, name)?;
    Ok(attribute_from(name, kind, options))
}

// An attribute without options.
fn plain_attribute(alloc: Global, name: &[u8], kind: &[u8]) -> Result<Attribute, Halt>
    ensures { Reads (spec.attribute_typed name.now (spec.kind_named kind.now) None) result }
{
    let kind = kind_named(kind).ok_or(Halt::Broken)?;
    attribute_with(alloc, name, kind, Items::new(alloc))
}

// An attribute with options.
fn full_attribute(
    alloc: Global,
    name: &[u8],
    kind: &[u8],
    options: &[u8],
) -> Result<Attribute, Halt>
    ensures { Reads (spec.attribute_typed name.now (spec.kind_named kind.now)
        (Some options.now)) result }
{
    let kind = kind_named(kind).ok_or(Halt::Broken)?;
    let options = read_options(alloc, kind, options)?;
    attribute_with(alloc, name, kind, options)
}

fn typed_attribute(alloc: Global, name: &[u8], text: &[u8]) -> Result<Attribute, Halt>
    ensures { Reads (spec.attribute_behind name.now (Some text.now)) result }
{
    match cut_once(text, b':') {
        None => plain_attribute(alloc, name, text),
        Some((kind, options)) => full_attribute(alloc, name, kind, options),
    }
}

fn begins_with_star(text: &[u8]) -> bool
    ensures { result ≡ spec.begins_with_star text.now }
{
    match text.first() {
        Some(first) => *first == b'*',
        None => false,
    }
}

fn without_star(text: &[u8]) -> &[u8]
    ensures { result.now ≡ spec.without_star text.now }
{
    if begins_with_star(text) {
        &text[1..]
    } else {
        text
    }
}

// An attribute between two commas.
#[tactic(auto, unfolding(crate::specs::Reader::attribute_of))]
fn read_attribute(alloc: Global, part: &[u8]) -> Result<Attribute, Halt>
    ensures { Reads (spec.attribute_of part.now) result }
{
    let text = without_star(trimmed(part));
    let (name, behind) = cut_once(text, b':').ok_or(Halt::Broken)?;
    typed_attribute(alloc, name, behind)
}

fn push_attribute(alloc: Global, attributes: &mut AttributeList, part: &[u8]) -> Result<(), Halt>
    ensures { Adds (spec.attribute_of part.now) attributes.old attributes.new result }
{
    let attribute = read_attribute(alloc, part)?;
    attributes.push(attribute)?;
    Ok(())
}

/// The attributes of a specification, with commas between them.
pub(crate) fn read_attributes(alloc: Global, text: &[u8]) -> Result<AttributeList, Halt>
    ensures { Reads (spec.attributes_of text.now) result }
{
    let mut attributes = Items::new(alloc);
    let mut rest = text;
    'parts: loop {
        let Some((part, behind)) = cut_once(rest, b',') else {
            push_attribute(alloc, &mut attributes, rest)?;
            return Ok(attributes);
        };
        push_attribute(alloc, &mut attributes, part)?;
        rest = behind;
    }
}

#[tactic(auto, unfolding(crate::specs::Reader::is_starred))]
fn is_starred(part: &[u8]) -> bool
    ensures { result ≡ spec.is_starred part.now }
{
    begins_with_star(trimmed(part))
}

/// Which attributes have a star.
pub(crate) fn read_stars(alloc: Global, text: &[u8]) -> Result<Vec<bool>, NoMemory>
    ensures { IfOk result (λ stars. stars.items ≡ spec.stars_of text.now) }
{
    let mut stars = Vec::new(alloc);
    let mut rest = text;
    'parts: loop {
        let Some((part, behind)) = cut_once(rest, b',') else {
            stars.push(is_starred(rest))?;
            return Ok(stars);
        };
        stars.push(is_starred(part))?;
        rest = behind;
    }
}
