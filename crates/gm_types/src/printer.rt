// Specifications, printed.
ghost use Rattle.std.specs.Prelude.{◌≡◌, ◌++◌, ◌∷◌, map, IfOk, OnOk};
ghost use Rattle.std.specs.String.{string_bytes};
ghost use Rattle.gm_base.specs.Ascii.{colon};
ghost use Rattle.gm_types.specs.Kind.{kind_name, shape_name};
ghost use Rattle.gm_types.specs.Outline.{outlined};
ghost use Rattle.gm_types.specs.Spelling as spec;

use crate::outline::Outline;
use crate::words::is_bare_form;
use crate::{Attribute, AttributeOption, Datum, FeatureType, GeoKind, Kind};
use gm_base::{NoMemory, Text};
use std::alloc::Global;

fn shape_name(shape: GeoKind) -> &'static str
    ensures { result.now ≡ shape_name shape }
{
    match shape {
        GeoKind::Point => "Point",
        GeoKind::LineString => "LineString",
        GeoKind::Polygon => "Polygon",
        GeoKind::MultiPoint => "MultiPoint",
        GeoKind::MultiLineString => "MultiLineString",
        GeoKind::MultiPolygon => "MultiPolygon",
        GeoKind::Any => "Geometry",
    }
}

fn kind_name(kind: Kind) -> &'static str
    ensures { result.now ≡ kind_name kind }
{
    match kind {
        Kind::Text => "String",
        Kind::Integer => "Integer",
        Kind::Long => "Long",
        Kind::Boolean => "Boolean",
        Kind::Date => "Date",
        Kind::Geo(shape) => shape_name(shape),
    }
}

fn append_option(out: &mut String, option: &AttributeOption) -> Result<(), NoMemory>
    ensures { OnOk result (string_bytes out.new
        ≡ string_bytes out.old ++ (colon ∷ spec.pair_text option.now)) }
{
    out.push_str(":")?;
    out.push_str(option.key.as_str())?;
    out.push_str("=")?;
    out.push_str(option.value.as_str())?;
    Ok(())
}

fn append_options(out: &mut String, options: &[AttributeOption]) -> Result<(), NoMemory>
    ensures { OnOk result (string_bytes out.new
        ≡ string_bytes out.old ++ spec.options_text options.now) }
{
    for option in options {
        append_option(out, option)?;
    }
    Ok(())
}

fn append_star(out: &mut String, star: bool) -> Result<(), NoMemory>
    ensures { OnOk result (string_bytes out.new ≡ string_bytes out.old ++ spec.star_text star) }
{
    if star {
        out.push_str("*")?;
    }
    Ok(())
}

fn append_attribute(out: &mut String, star: bool, attribute: &Attribute) -> Result<(), NoMemory>
    ensures { OnOk result (string_bytes out.new
        ≡ string_bytes out.old ++ spec.starred_text star attribute.now) }
{
    append_star(out, star)?;
    out.push_str(attribute.name.as_str())?;
    out.push_str(":")?;
    out.push_str(kind_name(attribute.kind))?;
    append_options(out, attribute.options.as_slice())
}

// A comma, but not before the first.
fn append_comma(out: &mut String, place: usize) -> Result<(), NoMemory>
    ensures { OnOk result (string_bytes out.new ≡ string_bytes out.old ++ spec.comma_before place) }
{
    if place > 0 {
        out.push_str(",")?;
    }
    Ok(())
}

fn is_place(geometry: Option<usize>, place: usize) -> bool
    ensures { result ≡ spec.is_place geometry place }
{
    match geometry {
        Some(there) => there == place,
        None => false,
    }
}

fn append_attributes(
    out: &mut String,
    geometry: Option<usize>,
    attributes: &[Attribute],
) -> Result<(), NoMemory>
    ensures { OnOk result (string_bytes out.new ≡ string_bytes out.old
        ++ spec.separated 0 (map spec.written_attribute
        (spec.canonical_attributes geometry 0 attributes.now))) }
{
    for (attribute_place, attribute) in attributes.iter().enumerate() {
        append_comma(out, attribute_place)?;
        append_attribute(out, is_place(geometry, attribute_place), attribute)?;
    }
    Ok(())
}

fn append_value(out: &mut String, value: &Text) -> Result<(), NoMemory>
    ensures { OnOk result (string_bytes out.new
        ≡ string_bytes out.old ++ spec.value_text (spec.needs_quotes value.now) value.now) }
{
    if is_bare_form(value.as_bytes()) {
        out.push_str(value.as_str())?;
        return Ok(());
    }
    out.push_str("'")?;
    out.push_str(value.as_str())?;
    out.push_str("'")?;
    Ok(())
}

fn append_datum(out: &mut String, datum: &Datum) -> Result<(), NoMemory>
    ensures { OnOk result (string_bytes out.new
        ≡ string_bytes out.old ++ spec.datum_text (spec.needs_quotes datum.now.value) datum.now) }
{
    out.push_str(datum.key.as_str())?;
    out.push_str("=")?;
    append_value(out, &datum.value)
}

fn append_data(out: &mut String, list: &[Datum]) -> Result<(), NoMemory>
    ensures { OnOk result (string_bytes out.new ≡ string_bytes out.old
        ++ spec.separated 0 (map spec.written_datum (map spec.canonical_datum list.now))) }
{
    for (datum_place, datum) in list.iter().enumerate() {
        append_comma(out, datum_place)?;
        append_datum(out, datum)?;
    }
    Ok(())
}

fn append_data_part(out: &mut String, list: &[Datum]) -> Result<(), NoMemory>
    ensures { OnOk result (string_bytes out.new ≡ string_bytes out.old
        ++ spec.data_part (map spec.written_datum (map spec.canonical_datum list.now))) }
{
    if list.is_empty() {
        return Ok(());
    }
    out.push_str(";")?;
    append_data(out, list)?;
    Ok(())
}

fn append_outline(out: &mut String, outline: &Outline) -> Result<(), NoMemory>
    ensures { OnOk result (string_bytes out.new
        ≡ string_bytes out.old ++ spec.canonical_text (outlined outline.now)) }
{
    append_attributes(out, outline.geometry, outline.attributes.as_slice())?;
    append_data_part(out, outline.user_data.as_slice())?;
    Ok(())
}

/// The canonical text of a type's specification: `*` before the default geometry alone, no blanks,
/// and quotes round values of user data alone that need them.
pub fn print_spec(alloc: Global, of: &FeatureType) -> Result<Text, NoMemory>
    ensures { IfOk result (λ text. text ≡ spec.canonical_text of.now) }
{
    let mut out = String::new(alloc);
    append_outline(&mut out, of.outline())?;
    Ok(Text::from_string(out))
}
