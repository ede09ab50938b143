// Rows printed.
ghost use Rattle.std.specs.Prelude.{◌≡◌, ◌++◌, map, Ok, IfOk, OnOk};
ghost use Rattle.std.specs.Fmt.{signed_decimal};
ghost use Rattle.std.specs.String.{string_bytes};
ghost use Rattle.gm_base.specs.Text.{BeginsWith};
ghost use Rattle.gm_feature.specs.Feature.{Fits};
ghost use Rattle.gm_rows.specs.Lines.{AreOnOneLine};
ghost use Rattle.gm_rows.specs.Reader.{row_of};
ghost use Rattle.gm_rows.specs.Printer.{begins_with_mark, has_marked, is_quoted, doubled};
ghost use Rattle.gm_rows.specs.Printer.{printed, field_of, further, row_text, truth_text};
ghost use Rattle.gm_wkt.specs.Printer as wkt;

use crate::printed_rows_are_read;
use gm_base::{NoMemory, Text};
use gm_calendar::print_instant;
use gm_feature::{Feature, Value};
use gm_geom::Geometry;
use gm_types::FeatureType;
use gm_wkt::print;
use itoa::Buffer;
use std::alloc::Global;

/// The row of a feature, without a line end.
pub fn print_row(alloc: Global, of: &FeatureType, feature: &Feature) -> Result<Text, NoMemory>
    ensures text { IfOk result (λ text. text ≡ row_text feature.now) }
    ensures reads_back { IfOk result (λ text. Fits of.now feature.now
        → AreOnOneLine feature.now.values
        → row_of of.now text ≡ Ok feature.now) }
{
    printed_rows_are_read();
    let _number = of.number();
    let mut row = String::new(alloc);
    append_row(alloc, &mut row, feature)?;
    Ok(Text::from_string(row))
}

/// Appends the row that `print_row` gives. Where memory runs out, part of it may be there.
pub fn append_row(alloc: Global, into: &mut String, feature: &Feature) -> Result<(), NoMemory>
    ensures text { OnOk result (string_bytes into.new
        ≡ string_bytes into.old ++ row_text feature.now) }
    ensures kept { BeginsWith (string_bytes into.new) (string_bytes into.old) }
{
    append_field(into, feature.id.as_str())?;
    append_values(alloc, into, feature.values.as_slice())
}

/// The field that `print_row` gives this value.
pub fn print_field(alloc: Global, value: &Value) -> Result<Text, NoMemory>
    ensures { IfOk result (λ text. text ≡ printed (field_of value.now)) }
{
    let mut field = String::new(alloc);
    append_value(alloc, &mut field, value)?;
    Ok(Text::from_string(field))
}

// Each value behind a comma.
fn append_values(alloc: Global, row: &mut String, values: &[Value]) -> Result<(), NoMemory>
    ensures text { OnOk result (string_bytes row.new
        ≡ string_bytes row.old ++ further (map field_of values.now)) }
    ensures kept { BeginsWith (string_bytes row.new) (string_bytes row.old) }
{
    'values: for value in values {
        row.push_str(",")?;
        append_value(alloc, row, value)?;
    }
    Ok(())
}

pub(crate) fn truth_text(truth: bool) -> &'static str
    ensures { result.now ≡ truth_text truth }
{
    if truth { "true" } else { "false" }
}

fn append_value(alloc: Global, row: &mut String, value: &Value) -> Result<(), NoMemory>
    ensures text { OnOk result (string_bytes row.new
        ≡ string_bytes row.old ++ printed (field_of value.now)) }
    ensures kept { BeginsWith (string_bytes row.new) (string_bytes row.old) }
{
    match value {
        Value::Null => append_field(row, ""),
        Value::Text(text) => append_field(row, text.as_str()),
        Value::Integer(number) => append_integer(row, *number),
        Value::Long(number) => append_long(row, *number),
        Value::Boolean(truth) => append_field(row, truth_text(*truth)),
        Value::Date(at) => {
            let text = print_instant(alloc, *at)?;
            append_field(row, text.as_str())
        }
        Value::Geo(geometry) => append_geometry(alloc, row, geometry),
    }
}

pub(crate) fn append_integer(row: &mut String, number: i32) -> Result<(), NoMemory>
    ensures text { OnOk result (string_bytes row.new
        ≡ string_bytes row.old ++ printed (signed_decimal number)) }
    ensures kept { BeginsWith (string_bytes row.new) (string_bytes row.old) }
{
    append_field(row, Buffer::new().format(number))
}

pub(crate) fn append_long(row: &mut String, number: i64) -> Result<(), NoMemory>
    ensures text { OnOk result (string_bytes row.new
        ≡ string_bytes row.old ++ printed (signed_decimal number)) }
    ensures kept { BeginsWith (string_bytes row.new) (string_bytes row.old) }
{
    append_field(row, Buffer::new().format(number))
}

pub(crate) fn append_geometry(
    alloc: Global,
    row: &mut String,
    geometry: &Geometry,
) -> Result<(), NoMemory>
    ensures text { OnOk result (string_bytes row.new
        ≡ string_bytes row.old ++ printed (wkt.printed geometry.now)) }
    ensures kept { BeginsWith (string_bytes row.new) (string_bytes row.old) }
{
    let text = print(alloc, geometry)?;
    append_field(row, text.as_str())
}

pub(crate) fn append_field(row: &mut String, field: &str) -> Result<(), NoMemory>
    ensures text { OnOk result (string_bytes row.new
        ≡ string_bytes row.old ++ printed field.now) }
    ensures kept { BeginsWith (string_bytes row.new) (string_bytes row.old) }
{
    if needs_quotes(field.as_bytes()) {
        row.push_str("\"")?;
        append_doubled(row, field)?;
        row.push_str("\"")?;
    } else {
        row.push_str(field)?;
    }
    Ok(())
}

// The text with each double quote twice.
fn append_doubled(row: &mut String, text: &str) -> Result<(), NoMemory>
    ensures text { OnOk result (string_bytes row.new
        ≡ string_bytes row.old ++ doubled text.now) }
    ensures kept { BeginsWith (string_bytes row.new) (string_bytes row.old) }
{
    let mut rest = text;
    'quotes: while let Some((before, after)) = rest.split_once('"') {
        row.push_str(before)?;
        row.push_str("\"\"")?;
        rest = after;
    }
    row.push_str(rest)?;
    Ok(())
}

fn needs_quotes(field: &[u8]) -> bool
    ensures { result ≡ is_quoted field.now }
{
    has_marked(field) || begins_with_mark(field)
}

fn has_marked(field: &[u8]) -> bool
    ensures { result ≡ has_marked field.now }
{
    field
        .iter()
        .any(|byte| *byte == b',' || *byte == b'"' || *byte == b'\r')
}

// Whether U+FEFF stands first.
pub(crate) fn begins_with_mark(field: &[u8]) -> bool
    ensures { result ≡ begins_with_mark field.now }
{
    field.len() >= 3 && field[0] == 0xEF && field[1] == 0xBB && field[2] == 0xBF
}
