// The enabled indexes of a type, and how each is named.
ghost use Rattle.std.specs.Prelude.{◌≡◌, ◌++◌, ◌∷◌, [], filter, length, slice_get, IfOk, OnOk};
ghost use Rattle.gm_types.specs.Index as spec;

use crate::{Attribute, FeatureType, IndexKind};
use gm_base::{Items, NoMemory, Text};
use std::alloc::Global;

/// Indexes, in the order of their kinds.
pub type IndexList = Items<IndexKind>;

fn push_enabled(list: &mut IndexList, of: &FeatureType, kind: IndexKind) -> Result<(), NoMemory>
    ensures { OnOk result (list.new ≡ list.old ++ filter (spec.has_index of.now) (kind ∷ [])) }
{
    if of.has(kind) {
        list.push(kind)?;
    }
    Ok(())
}

fn push_attributes(list: &mut IndexList, of: &FeatureType) -> Result<(), NoMemory>
    ensures { OnOk result (list.new
        ≡ list.old ++ filter (spec.has_index of.now)
        (spec.attribute_indexes 0 (length of.now.attributes))) }
{
    let count = of.attributes().len();
    for number in 0..count {
        push_enabled(list, of, IndexKind::Attr(number as u16))?;
    }
    Ok(())
}

/// The enabled indexes in the order of their kinds, each once.
pub fn enabled_indexes(alloc: Global, of: &FeatureType) -> Result<IndexList, NoMemory>
    ensures { IfOk result (λ list. list ≡ spec.enabled_indexes of.now) }
{
    let mut list = Items::new(alloc);
    push_enabled(&mut list, of, IndexKind::Id)?;
    push_enabled(&mut list, of, IndexKind::Z2)?;
    push_enabled(&mut list, of, IndexKind::Z3)?;
    push_enabled(&mut list, of, IndexKind::Xz2)?;
    push_enabled(&mut list, of, IndexKind::Xz3)?;
    push_attributes(&mut list, of)?;
    Ok(list)
}

fn attribute_index_name(
    alloc: Global,
    attributes: &[Attribute],
    number: u16,
) -> Result<Text, NoMemory>
    ensures { IfOk result (λ name. name
        ≡ spec.attribute_index_name (slice_get attributes.now number)) }
{
    let mut name = String::from_str(alloc, "attr:")?;
    if let Some(attribute) = attributes.get(usize::from(number)) {
        name.push_str(attribute.name.as_str())?;
    }
    Ok(Text::from_string(name))
}

/// The name of an index: `id`, `z2`, `z3`, `xz2`, `xz3`, or `attr:` and the name of the attribute.
pub fn index_name(alloc: Global, of: &FeatureType, kind: IndexKind) -> Result<Text, NoMemory>
    ensures { IfOk result (λ name. name ≡ spec.index_name of.now kind) }
{
    match kind {
        IndexKind::Id => Text::from_str(alloc, "id"),
        IndexKind::Z2 => Text::from_str(alloc, "z2"),
        IndexKind::Z3 => Text::from_str(alloc, "z3"),
        IndexKind::Xz2 => Text::from_str(alloc, "xz2"),
        IndexKind::Xz3 => Text::from_str(alloc, "xz3"),
        IndexKind::Attr(number) => {
            attribute_index_name(alloc, of.attributes().as_slice(), number)
        }
    }
}
