// Cases of specifications and types.
use crate::words;
use gm_base::NoMemory;
use gm_types::{FeatureType, enabled_indexes, index_name, is_same, print_spec, read_spec};
use std::alloc::Global;

/// The canonical text, and whether it reads back as the same type.
pub fn canonical(alloc: Global, of: &FeatureType) -> Result<String, NoMemory> {
    let text = print_spec(alloc, of)?;
    let same = reads_back(alloc, of, text.as_bytes())?;
    Ok(format!(in alloc; "{} same {same}", text.as_str())?)
}

#[tactic(auto, unfolding(gm_types::specs::Words::is_name))]
fn reads_back(alloc: Global, of: &FeatureType, text: &[u8]) -> Result<bool, NoMemory> {
    match read_spec(alloc, b"t", 0, text) {
        Ok(again) => is_same(alloc, of, &again),
        Err(_) => Ok(false),
    }
}

/// The places of the default geometry and date, and the settings.
pub fn settings(alloc: Global, of: &FeatureType) -> Result<String, NoMemory> {
    let (geometry, date) = (of.default_geometry(), of.default_date());
    let places = format!(in alloc; "geometry {geometry:?} date {date:?}")?;
    let (period, shards, precision) = (of.period(), of.shards(), of.precision());
    let (plane, space) = (of.z2_bits(), of.z3_bits());
    Ok(format!(in alloc;
        "{places} {period:?} shards {shards} precision {precision} bits {plane} {space}"
    )?)
}

/// The enabled indexes by their names, and how many of these mean them.
pub fn indexes(alloc: Global, of: &FeatureType) -> Result<String, NoMemory> {
    let mut text = String::new(alloc);
    let mut meant = 0u32;
    for kind in enabled_indexes(alloc, of)?.as_slice() {
        let name = index_name(alloc, of, *kind)?;
        text.push_str(name.as_str())?;
        text.push(' ')?;
        if of.index_named(name.as_bytes()) == Some(*kind) {
            meant = meant.saturating_add(1);
        }
    }
    Ok(format!(in alloc; "{text}of which {meant} by name")?)
}

/// What a name means.
pub fn named(alloc: Global, of: &FeatureType, name: &str) -> Result<String, NoMemory> {
    let attribute = of.attribute_named(name.as_bytes());
    let index = of.index_named(name.as_bytes());
    Ok(format!(in alloc; "attribute {attribute:?} index {index:?}")?)
}

/// How many attributes and user data it has.
pub fn lengths(alloc: Global, of: &FeatureType) -> Result<String, NoMemory> {
    let attributes = of.attributes().len();
    let given = of.user_data().len();
    Ok(format!(in alloc; "{attributes} attributes, {given} user data")?)
}

/// A specification of that many parts, between a head and a tail: `COUNT HEAD PART TAIL`. A part is
/// a letter, its number and what stands behind it; a head `-` is none.
pub fn many(alloc: Global, rest: &str) -> Result<String, NoMemory> {
    let (count, rest) = words::split(rest);
    let (head, rest) = words::split(rest);
    let (part, tail) = words::split(rest);
    let mut spec = String::new(alloc);
    if head != "-" {
        spec.push_str(head)?;
    }
    for number in 0..count.parse::<u32>().unwrap_or(0) {
        write!(spec, "k{number}{part}")?;
    }
    spec.push_str(tail)?;
    Ok(spec)
}
