// Rows read.
ghost use Rattle.std.specs.Prelude.{◌≡◌, ◌∷◌, map, true, Some, Ok, IfOk};
ghost use Rattle.gm_feature.specs.Feature.{Fits};
ghost use Rattle.gm_rows.specs.Reader as spec;
ghost use Rattle.gm_rows.specs.Reader.{Answers};

use crate::cut::{cut_row, is_plain};
use crate::field::read_field;
use crate::record::{fields_in, read_record};
use crate::{RowFault, read_rows_fit};
use gm_base::{FeatureId, IdFault, Items, NoMemory};
use gm_feature::{Feature, Values, dates_fit};
use gm_types::{Attribute, FeatureType};
use std::alloc::Global;

/// The feature of a row: the identifier and a value for each attribute. A row in which `csv` has
/// nothing to do but to cut at commas is cut here.
pub fn read_row(alloc: Global, of: &FeatureType, row: &[u8]) -> Result<Feature, RowFault>
    ensures answer { Answers (spec.row_of of.now row.now) result }
    ensures fits { IfOk result (Fits of.now) }
{
    read_rows_fit();
    read_any(alloc, of, row)
}

fn read_any(alloc: Global, of: &FeatureType, row: &[u8]) -> Result<Feature, RowFault>
    ensures { Answers (spec.row_of of.now row.now) result }
{
    if is_plain(row) {
        return read_plain(alloc, of, row);
    }
    read_quoted(alloc, of, row)
}

fn read_plain(alloc: Global, of: &FeatureType, row: &[u8]) -> Result<Feature, RowFault>
    requires { spec.is_plain row.now ≡ true }
    ensures { Answers (spec.row_of of.now row.now) result }
{
    match cut_row(alloc, row) {
        Ok(fields) => read_feature(alloc, of, fields.as_slice()),
        Err(NoMemory) => Err(RowFault::NoMemory),
    }
}

fn read_quoted(alloc: Global, of: &FeatureType, row: &[u8]) -> Result<Feature, RowFault>
    ensures { Answers (spec.row_of of.now row.now) result }
{
    let Ok(record) = read_record(alloc, row) else {
        return Err(RowFault::NoMemory);
    };
    let record = record.ok_or(RowFault::Count)?;
    let Ok(fields) = fields_in(alloc, &record) else {
        return Err(RowFault::NoMemory);
    };
    read_feature(alloc, of, fields.as_slice())
}

// The feature of a record.
fn read_feature(alloc: Global, of: &FeatureType, fields: &[&[u8]]) -> Result<Feature, RowFault>
    ensures { Answers (spec.feature_of_record of.now (Some (map (λ f. f.now) fields.now))) result }
{
    let (id, fields) = fields.split_first().ok_or(RowFault::Count)?;
    read_fields(alloc, of, id, fields)
}

fn read_fields(
    alloc: Global,
    of: &FeatureType,
    id: &[u8],
    fields: &[&[u8]],
) -> Result<Feature, RowFault>
    ensures { Answers (spec.feature_of_record of.now
        (Some (id.now ∷ map (λ f. f.now) fields.now))) result }
{
    let attributes = of.attributes().as_slice();
    if fields.len() != attributes.len() {
        return Err(RowFault::Count);
    }
    let values = read_values(alloc, attributes, fields)?;
    feature_with(alloc, of, id, values)
}

// The feature with an identifier and values, where its date has a bin if it needs one.
fn feature_with(
    alloc: Global,
    of: &FeatureType,
    id: &[u8],
    values: Values,
) -> Result<Feature, RowFault>
    ensures { Answers (spec.feature_from of.now id.now (Ok values)) result }
{
    if !dates_fit(of, values.as_slice()) {
        return Err(RowFault::Date);
    }
    match FeatureId::of(alloc, id) {
        Ok(id) => Ok(Feature { id, values }),
        Err(IdFault::Form) => Err(RowFault::Id),
        Err(IdFault::NoMemory) => Err(RowFault::NoMemory),
    }
}

// The values of fields. A fault of a value in any field comes before one of a geometry.
fn read_values(
    alloc: Global,
    attributes: &[Attribute],
    fields: &[&[u8]],
) -> Result<Values, RowFault>
    ensures { Answers (spec.values_of (spec.attribute_kinds attributes.now)
        (map (λ f. f.now) fields.now)) result }
{
    let mut values = Items::new(alloc);
    let mut faulty = false;
    'fields: for (index, attribute) in attributes.iter().enumerate() {
        if index >= fields.len() {
            return Err(RowFault::Value);
        }
        match read_field(alloc, attribute.kind, fields[index]) {
            Ok(value) => match values.push(value) {
                Ok(()) => {}
                Err(NoMemory) => return Err(RowFault::NoMemory),
            },
            Err(RowFault::Geometry) => faulty = true,
            Err(RowFault::Value) => return Err(RowFault::Value),
            Err(RowFault::Count) => return Err(RowFault::Count),
            Err(RowFault::Date) => return Err(RowFault::Date),
            Err(RowFault::Id) => return Err(RowFault::Id),
            Err(RowFault::NoMemory) => return Err(RowFault::NoMemory),
        }
    }
    if faulty {
        return Err(RowFault::Geometry);
    }
    Ok(values)
}
