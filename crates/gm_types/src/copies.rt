// Copies of types.
ghost use Rattle.std.specs.Prelude.{◌≡◌, IfOk};
ghost use Rattle.gm_types.specs.Outline.{outlined};

use crate::outline::Outline;
use crate::{Attribute, AttributeList, AttributeOption, DataList, Datum, OptionList};
use gm_base::{Items, NoMemory};
use std::alloc::Global;

fn copy_option(alloc: Global, option: &AttributeOption) -> Result<AttributeOption, NoMemory>
    ensures { IfOk result (λ copy. copy ≡ option.now) }
{
    Ok(AttributeOption {
        key: option.key.copy(alloc)?,
        value: option.value.copy(alloc)?,
    })
}

fn copy_options(alloc: Global, options: &[AttributeOption]) -> Result<OptionList, NoMemory>
    ensures { IfOk result (λ copy. copy ≡ options.now) }
{
    let mut copies = Items::new(alloc);
    for option in options {
        copies.push(copy_option(alloc, option)?)?;
    }
    Ok(copies)
}

fn copy_attribute(alloc: Global, attribute: &Attribute) -> Result<Attribute, NoMemory>
    ensures { IfOk result (λ copy. copy ≡ attribute.now) }
{
    Ok(Attribute {
        name: attribute.name.copy(alloc)?,
        kind: attribute.kind,
        indexed: attribute.indexed,
        high: attribute.high,
        options: copy_options(alloc, attribute.options.as_slice())?,
    })
}

fn copy_attributes(alloc: Global, attributes: &[Attribute]) -> Result<AttributeList, NoMemory>
    ensures { IfOk result (λ copy. copy ≡ attributes.now) }
{
    let mut copies = Items::new(alloc);
    for attribute in attributes {
        copies.push(copy_attribute(alloc, attribute)?)?;
    }
    Ok(copies)
}

fn copy_datum(alloc: Global, datum: &Datum) -> Result<Datum, NoMemory>
    ensures { IfOk result (λ copy. copy ≡ datum.now) }
{
    Ok(Datum {
        key: datum.key.copy(alloc)?,
        value: datum.value.copy(alloc)?,
    })
}

fn copy_data(alloc: Global, list: &[Datum]) -> Result<DataList, NoMemory>
    ensures { IfOk result (λ copy. copy ≡ list.now) }
{
    let mut copies = Items::new(alloc);
    for datum in list {
        copies.push(copy_datum(alloc, datum)?)?;
    }
    Ok(copies)
}

/// A copy of an outline.
pub(crate) fn copy_outline(alloc: Global, outline: &Outline) -> Result<Outline, NoMemory>
    ensures { IfOk result (λ copy. outlined copy ≡ outlined outline.now) }
{
    Ok(Outline {
        name: outline.name.copy(alloc)?,
        number: outline.number,
        attributes: copy_attributes(alloc, outline.attributes.as_slice())?,
        user_data: copy_data(alloc, outline.user_data.as_slice())?,
        geometry: outline.geometry,
    })
}
