// Rows printed of the bytes of features.
ghost use Rattle.std.specs.Prelude.{◌≡◌, ◌++◌, ◌∷◌, List, true, map, IsUtf8, OnOk};
ghost use Rattle.std.specs.String.{string_bytes};
ghost use Rattle.gm_base.specs.Text.{BeginsWith};
ghost use Rattle.gm_feature.specs.declared.feature.Feature.{Feature as AnyFeature};
ghost use Rattle.gm_feature.specs.declared.value.Value.{Value as AnyValue};
ghost use Rattle.gm_feature.specs.Stored.{IsStored, AreStored, IsStoredGeometry, Says};
ghost use Rattle.gm_feature.specs.Value.{is_sound};
ghost use Rattle.gm_geom.specs.declared.geometry.Geometry.{Geometry as AnyGeometry};
ghost use Rattle.gm_rows.specs.Printer.{printed, field_of, further, row_text};
ghost use Rattle.gm_wkt.specs.Printer as wkt;

use crate::printer::{append_field, append_geometry, append_integer, append_long, truth_text};
use gm_base::NoMemory;
use gm_calendar::{append_instant, instants_are_tested, printed_instants_are_read};
use gm_feature::{
    Stored, StoredGeometry, StoredValue, StoredValues, fitting_features_have_values,
    stored_texts_are_utf8,
};
use gm_wkt::{append_point, points_are_plain};
use std::alloc::Global;

/// Appends the row that `print_row` gives of the feature with these bytes. No feature is made, and
/// no text but for a geometry that is no point. Where memory runs out, part of it may be there.
pub fn append_stored_row(
    alloc: Global,
    into: &mut String,
    stored: &Stored<'_>,
) -> Result<(), NoMemory>
    requires { (f : AnyFeature) × IsStored stored.now f }
    ensures text { (f : AnyFeature) → IsStored stored.now f
        → OnOk result (string_bytes into.new ≡ string_bytes into.old ++ row_text f) }
    ensures kept { BeginsWith (string_bytes into.new) (string_bytes into.old) }
{
    stored_texts_are_utf8();
    append_text(into, stored.id())?;
    append_stored_values(alloc, into, stored)
}

// Each value behind a comma.
fn append_stored_values(
    alloc: Global,
    row: &mut String,
    stored: &Stored<'_>,
) -> Result<(), NoMemory>
    ensures text { (f : AnyFeature) → IsStored stored.now f → OnOk result (string_bytes row.new
        ≡ string_bytes row.old ++ further (map field_of f.values)) }
    ensures kept { BeginsWith (string_bytes row.new) (string_bytes row.old) }
{
    fitting_features_have_values();
    let count = stored.of.attributes().len();
    let mut left = stored.values();
    'values: for _ in 0..count {
        row.push_str(",")?;
        append_next(alloc, row, &mut left)?;
    }
    Ok(())
}

// The first value that is left. The arm for a geometry shows the prover all types of a value.
fn append_next(alloc: Global, row: &mut String, left: &mut StoredValues<'_>) -> Result<(), NoMemory>
    ensures pushed { (first : AnyValue) (others : List AnyValue)
        → AreStored left.old (first ∷ others)
        → OnOk result (string_bytes row.new ≡ string_bytes row.old ++ printed (field_of first)) }
    ensures rest { (first : AnyValue) (others : List AnyValue)
        → AreStored left.old (first ∷ others) → AreStored left.new others }
    ensures kept { BeginsWith (string_bytes row.new) (string_bytes row.old) }
{
    match left.next() {
        StoredValue::Geometry(geometry) => append_stored_geometry(alloc, row, &geometry),
        value => append_stored_value(alloc, row, &value),
    }
}

fn append_stored_value(
    alloc: Global,
    row: &mut String,
    value: &StoredValue<'_>,
) -> Result<(), NoMemory>
    ensures text { (v : AnyValue) → Says value.now v → is_sound v ≡ true → OnOk result
        (string_bytes row.new ≡ string_bytes row.old ++ printed (field_of v)) }
    ensures kept { BeginsWith (string_bytes row.new) (string_bytes row.old) }
{
    printed_instants_are_read();
    instants_are_tested();
    points_are_plain();
    stored_texts_are_utf8();
    match value {
        StoredValue::Null => Ok(()),
        StoredValue::Text(text) => append_text(row, text),
        StoredValue::Integer(number) => append_integer(row, *number),
        StoredValue::Long(number) => append_long(row, *number),
        StoredValue::Boolean(truth) => append_field(row, truth_text(*truth)),
        StoredValue::Date(at) => append_instant(row, *at),
        StoredValue::Point(point) => append_point(row, point),
        StoredValue::Geometry(geometry) => append_stored_geometry(alloc, row, geometry),
    }
}

fn append_text(row: &mut String, text: &[u8]) -> Result<(), NoMemory>
    ensures text { IsUtf8 text.now → OnOk result
        (string_bytes row.new ≡ string_bytes row.old ++ printed text.now) }
    ensures kept { BeginsWith (string_bytes row.new) (string_bytes row.old) }
{
    match str::from_utf8(text) {
        Ok(field) => append_field(row, field),
        Err(_) => Ok(()),
    }
}

fn append_stored_geometry(
    alloc: Global,
    row: &mut String,
    stored: &StoredGeometry<'_>,
) -> Result<(), NoMemory>
    ensures text { (g : AnyGeometry) → IsStoredGeometry stored.now g → OnOk result
        (string_bytes row.new ≡ string_bytes row.old ++ printed (wkt.printed g)) }
    ensures kept { BeginsWith (string_bytes row.new) (string_bytes row.old) }
{
    match stored.decode(alloc)? {
        Some(geometry) => append_geometry(alloc, row, &geometry),
        None => Ok(()),
    }
}
