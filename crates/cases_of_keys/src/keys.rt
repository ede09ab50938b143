// Cases of keys, and of the change of a feature's rows.
ghost use Rattle.std.specs.Prelude.{IfOk};
ghost use Rattle.std.specs.Option.{option_copied, ForSome};
ghost use Rattle.gm_feature.specs.Feature.{Fits};

use crate::words;
use gm_base::{Bytes, NoMemory};
use gm_engine_rows::batch_of;
use gm_feature::{Feature, fits};
use gm_keys::{id_key, id_of, key_of, keys_of};
use gm_rows::{RowFault, read_row};
use gm_types::{FeatureType, SpecFault, read_spec};
use std::alloc::Global;

/// `WORD NUMBER SPEC REST`, of the type of that number.
pub fn answer(alloc: Global, word: &str, rest: &str) -> Result<String, NoMemory> {
    let (number, rest) = words::split(rest);
    let (spec, rest) = words::split(rest);
    match type_of(alloc, number.parse::<u16>().unwrap_or(0), spec.as_bytes()) {
        Err(SpecFault::NoMemory) => Err(NoMemory),
        Err(_) => words::text(alloc, "no type"),
        Ok(of) => match word {
            "key" => key(alloc, &of, rest),
            "keys" => keys(alloc, &of, rest),
            "id-of" => place(alloc, &of, rest),
            "rows-large" => large(alloc, &of),
            _ => change(alloc, &of, rest),
        },
    }
}

#[tactic(auto, unfolding(gm_types::specs::Words::is_name))]
fn type_of(alloc: Global, number: u16, spec: &[u8]) -> Result<FeatureType, SpecFault> {
    read_spec(alloc, b"t", number, spec)
}

// The feature of a row, if it fits; `-` is none.
fn feature_of(alloc: Global, of: &FeatureType, row: &str) -> Result<Option<Feature>, NoMemory>
    ensures { IfOk result (λ feature. ForSome feature (Fits of.now)) }
{
    if row == "-" {
        return Ok(None);
    }
    match read_row(alloc, of, row.as_bytes()) {
        Ok(feature) if fits(of, &feature) => Ok(Some(feature)),
        Ok(_) => Ok(None),
        Err(RowFault::NoMemory) => Err(NoMemory),
        Err(_) => Ok(None),
    }
}

// The key in an index, and where its identifier stands: `key NUMBER SPEC INDEX ROW`.
fn key(alloc: Global, of: &FeatureType, rest: &str) -> Result<String, NoMemory> {
    let (name, row) = words::split(rest);
    let Some(kind) = of.index_named(name.as_bytes()) else {
        return words::text(alloc, "no such index");
    };
    let Some(feature) = feature_of(alloc, of, row)? else {
        return words::text(alloc, "no feature");
    };
    match key_of(alloc, of, kind, &feature)? {
        None => words::text(alloc, "none"),
        Some(key) => {
            let digits = words::digits(alloc, key.as_slice())?;
            let place = id_of(of, kind, key.as_slice());
            Ok(format!(in alloc; "{digits} {place:?}")?)
        }
    }
}

// All keys, in order, and whether the first is that of the identifier.
fn keys(alloc: Global, of: &FeatureType, row: &str) -> Result<String, NoMemory> {
    let Some(feature) = feature_of(alloc, of, row)? else {
        return words::text(alloc, "no feature");
    };
    let first = id_key(alloc, of, &feature.id)?;
    let all = keys_of(alloc, of, &feature)?;
    let same = match all.as_slice().first() {
        Some(key) => key.as_slice() == first.as_slice(),
        None => false,
    };
    let list = listed(alloc, all.as_slice())?;
    Ok(format!(in alloc; "{list}{same}")?)
}

fn listed(alloc: Global, keys: &[Bytes]) -> Result<String, NoMemory> {
    let mut text = String::new(alloc);
    for key in keys {
        let digits = words::digits(alloc, key.as_slice())?;
        text.push_str(digits.as_str())?;
        text.push(' ')?;
    }
    Ok(text)
}

// Where the identifier of these bytes stands, taken as a key: `id-of NUMBER SPEC INDEX BYTES`.
fn place(alloc: Global, of: &FeatureType, rest: &str) -> Result<String, NoMemory> {
    let (name, digits) = words::split(rest);
    match of.index_named(name.as_bytes()) {
        None => words::text(alloc, "no such index"),
        Some(kind) => {
            let key = words::bytes(alloc, digits)?;
            Ok(format!(in alloc; "{:?}", id_of(of, kind, &key))?)
        }
    }
}

// The removed keys and the put rows, where a feature takes the place of another:
// `change NUMBER SPEC ROW / ROW`.
fn change(alloc: Global, of: &FeatureType, rest: &str) -> Result<String, NoMemory> {
    let Some((old, new)) = rest.split_once(" / ") else {
        return words::text(alloc, "no change");
    };
    let old = feature_of(alloc, of, old)?;
    let new = feature_of(alloc, of, new)?;
    changed(alloc, of, old.as_ref(), new.as_ref())
}

fn changed(
    alloc: Global,
    of: &FeatureType,
    old: Option<&Feature>,
    new: Option<&Feature>,
) -> Result<String, NoMemory>
    requires old { ForSome (option_copied old) (Fits of.now) }
    requires new { ForSome (option_copied new) (Fits of.now) }
{
    let batch = batch_of(alloc, of, old, new)?;
    let removes = listed(alloc, batch.removes.as_slice())?;
    let mut text = format!(in alloc; "removes {removes}puts")?;
    for put in batch.puts.as_slice() {
        let key = words::digits(alloc, put.key.as_slice())?;
        let bytes = words::digits(alloc, put.bytes.as_slice())?;
        write!(text, " {key}={bytes}")?;
    }
    Ok(text)
}

// The lengths of the keys and of the bytes of the rows of a feature with a text of 1,048,576 bytes
// and a line of 10,000 points.
fn large(alloc: Global, of: &FeatureType) -> Result<String, NoMemory> {
    let mut row = String::from_str(alloc, "f1,")?;
    for _ in 0..1_048_576 {
        row.push('a')?;
    }
    row.push_str(",\"LINESTRING (0 0")?;
    for _ in 1..10_000 {
        row.push_str(", 1 1")?;
    }
    row.push_str(")\"")?;
    let feature = feature_of(alloc, of, row.as_str())?;
    let batch = batch_of(alloc, of, None, feature.as_ref())?;
    let mut text = String::new(alloc);
    for put in batch.puts.as_slice() {
        let (key, bytes) = (put.key.len(), put.bytes.len());
        write!(text, "{key} with {bytes} ")?;
    }
    Ok(text)
}
