// The keys of a feature.
ghost use Rattle.std.specs.Prelude.{◌≡◌, ◌≤◌, ◌<◌, ◌^◌, ◌++◌, true, length};
ghost use Rattle.std.specs.Prelude.{is_none, IsTrue, IfOk, OnOk};
ghost use Rattle.byteorder.specs.Endian.{big_bytes};
ghost use Rattle.std.specs.List.{flat_map};
ghost use Rattle.gm_types.specs.Index.{has_index, attribute_indexes};
ghost use Rattle.gm_types.specs.declared.index.IndexKind.TheVariants.{Id, Z2, Z3, Xz2, Xz3, Attr};
ghost use Rattle.gm_feature.specs.Feature.{Fits};
ghost use Rattle.gm_feature.specs.Value.{is_sound};
ghost use Rattle.gm_keys.specs.Key as spec;
ghost use Rattle.gm_keys.specs.Whereabouts.{lacks_value};

use crate::cell::{xz2_code, xz3_code, z2_code, z3_code};
use crate::form::{form_length, put_form};
use crate::laws::keys_are_missing_where_values_are;
use crate::whereabouts::{bin_in, box_in, point_in};
use byteorder::{BigEndian, ByteOrder};
use gm_base::{Bytes, FeatureId, Items, NoMemory, fnv1a};
use gm_feature::{Feature, Value};
use gm_types::{FeatureType, IndexKind, types_hold_together};
use std::alloc::Global;

/// How many bytes a shard and a code have.
pub(crate) const CODE_LENGTH: usize = 9;

/// How many bytes a shard, a bin and a code have.
pub(crate) const BIN_CODE_LENGTH: usize = 11;

/// The key of a feature in an index of its type: the number of the type in two bytes, that of the
/// index in one, what the index puts before the identifier, and the identifier. None where a value
/// that the index needs is null.
pub fn key_of(
    alloc: Global,
    of: &FeatureType,
    kind: IndexKind,
    feature: &Feature,
) -> Result<Option<Bytes>, NoMemory>
    requires fits { Fits of.now feature.now }
    requires has { IsTrue (has_index of.now kind) }
    ensures key { IfOk result (λ key. key ≡ spec.key_of of.now kind feature.now) }
    ensures none { IfOk result (λ key. is_none key ≡ lacks_value of.now kind feature.now) }
{
    types_hold_together(of);
    keys_are_missing_where_values_are();
    key_in(alloc, of, kind, feature)
}

// The same, also where the type has not the index.
fn key_in(
    alloc: Global,
    of: &FeatureType,
    kind: IndexKind,
    feature: &Feature,
) -> Result<Option<Bytes>, NoMemory>
    requires { Fits of.now feature.now }
    ensures { IfOk result (λ key. key ≡ spec.key_of of.now kind feature.now) }
{
    match kind {
        IndexKind::Id => Ok(Some(id_key(alloc, of, &feature.id)?)),
        IndexKind::Z2 => z2_key(alloc, of, feature),
        IndexKind::Z3 => z3_key(alloc, of, feature),
        IndexKind::Xz2 => xz2_key(alloc, of, feature),
        IndexKind::Xz3 => xz3_key(alloc, of, feature),
        IndexKind::Attr(attribute) => value_key(alloc, of, attribute, feature),
    }
}

/// The key in the index `id` of a feature with this identifier.
pub fn id_key(alloc: Global, of: &FeatureType, id: &FeatureId) -> Result<Bytes, NoMemory>
    ensures { IfOk result (λ key. key ≡ spec.id_key of.now id.now) }
{
    let mut key = begun(alloc, of, IndexKind::Id, id.as_bytes().len())?;
    key.append(id.as_bytes())?;
    Ok(key)
}

fn z2_key(alloc: Global, of: &FeatureType, feature: &Feature) -> Result<Option<Bytes>, NoMemory>
    requires { Fits of.now feature.now }
    ensures { IfOk result (λ key. key ≡ spec.key_of of.now Z2 feature.now) }
{
    let Some(point) = point_in(of, feature) else {
        return Ok(None);
    };
    let code = z2_code(of.z2_bits(), point);
    Ok(Some(code_key(alloc, of, IndexKind::Z2, &feature.id, code)?))
}

fn z3_key(alloc: Global, of: &FeatureType, feature: &Feature) -> Result<Option<Bytes>, NoMemory>
    requires { Fits of.now feature.now }
    ensures { IfOk result (λ key. key ≡ spec.key_of of.now Z3 feature.now) }
{
    let Some(point) = point_in(of, feature) else {
        return Ok(None);
    };
    let Some(bin) = bin_in(of, feature) else {
        return Ok(None);
    };
    let code = z3_code(of.period(), of.z3_bits(), point, bin.offset);
    let key = bin_code_key(alloc, of, IndexKind::Z3, &feature.id, bin.number, code)?;
    Ok(Some(key))
}

fn xz2_key(alloc: Global, of: &FeatureType, feature: &Feature) -> Result<Option<Bytes>, NoMemory>
    requires { Fits of.now feature.now }
    ensures { IfOk result (λ key. key ≡ spec.key_of of.now Xz2 feature.now) }
{
    let Some(extent) = box_in(of, feature) else {
        return Ok(None);
    };
    let code = xz2_code(of.precision(), extent);
    Ok(Some(code_key(alloc, of, IndexKind::Xz2, &feature.id, code)?))
}

fn xz3_key(alloc: Global, of: &FeatureType, feature: &Feature) -> Result<Option<Bytes>, NoMemory>
    requires { Fits of.now feature.now }
    ensures { IfOk result (λ key. key ≡ spec.key_of of.now Xz3 feature.now) }
{
    let Some(extent) = box_in(of, feature) else {
        return Ok(None);
    };
    let Some(bin) = bin_in(of, feature) else {
        return Ok(None);
    };
    let code = xz3_code(of.period(), of.precision(), extent, bin.offset);
    let key = bin_code_key(alloc, of, IndexKind::Xz3, &feature.id, bin.number, code)?;
    Ok(Some(key))
}

fn value_key(
    alloc: Global,
    of: &FeatureType,
    attribute: u16,
    feature: &Feature,
) -> Result<Option<Bytes>, NoMemory>
    requires { Fits of.now feature.now }
    ensures { IfOk result (λ key. key ≡ spec.key_of of.now (Attr attribute) feature.now) }
{
    match feature.values.as_slice().get(usize::from(attribute)) {
        Some(value) => form_key(alloc, of, attribute, &feature.id, value),
        None => Ok(None),
    }
}

fn form_key(
    alloc: Global,
    of: &FeatureType,
    attribute: u16,
    id: &FeatureId,
    value: &Value,
) -> Result<Option<Bytes>, NoMemory>
    requires { is_sound value.now ≡ true }
    ensures { IfOk result (λ key. key ≡ spec.value_key of.now attribute id.now value.now) }
{
    let Some(length) = form_length(value) else {
        return Ok(None);
    };
    let rest = length + id.as_bytes().len();
    let mut key = begun(alloc, of, IndexKind::Attr(attribute), rest)?;
    put_form(alloc, &mut key, value)?;
    key.append(id.as_bytes())?;
    Ok(Some(key))
}

// A key with a shard and a code.
#[tactic(auto, unfolding(crate::specs::Key::code_front))]
fn code_key(
    alloc: Global,
    of: &FeatureType,
    kind: IndexKind,
    id: &FeatureId,
    code: u64,
) -> Result<Bytes, NoMemory>
    ensures { IfOk result (λ key. key
        ≡ spec.code_front (spec.prefix_of of.now kind) (spec.shard_of of.now id.now) code
        ++ id.now) }
{
    let mut key = begun(alloc, of, kind, CODE_LENGTH + id.as_bytes().len())?;
    key.append(&[shard_of(of, id)])?;
    put_code(&mut key, code)?;
    key.append(id.as_bytes())?;
    Ok(key)
}

// A key with a shard, a bin and a code.
#[tactic(auto, unfolding(crate::specs::Key::bin_code_front))]
fn bin_code_key(
    alloc: Global,
    of: &FeatureType,
    kind: IndexKind,
    id: &FeatureId,
    bin: u16,
    code: u64,
) -> Result<Bytes, NoMemory>
    ensures { IfOk result (λ key. key
        ≡ spec.bin_code_front (spec.prefix_of of.now kind) (spec.shard_of of.now id.now) bin code
        ++ id.now) }
{
    let mut key = begun(alloc, of, kind, BIN_CODE_LENGTH + id.as_bytes().len())?;
    key.append(&[shard_of(of, id)])?;
    put_number(&mut key, bin)?;
    put_code(&mut key, code)?;
    key.append(id.as_bytes())?;
    Ok(key)
}

// The prefix of the keys of an index, with room for so many further bytes.
#[tactic(auto, unfolding(crate::specs::Key::prefix_of))]
fn begun(alloc: Global, of: &FeatureType, kind: IndexKind, rest: usize) -> Result<Bytes, NoMemory>
    requires { rest < 2 ^ 32 }
    ensures { IfOk result (λ key. key ≡ spec.prefix_of of.now kind) }
{
    let mut key = Bytes::from_vec(Vec::with_capacity(alloc, prefix_length(kind) + rest)?);
    put_number(&mut key, of.number())?;
    key.append(&[index_number(kind)])?;
    put_attribute(&mut key, kind)?;
    Ok(key)
}

// How many bytes the prefix of the keys of an index has.
fn prefix_length(kind: IndexKind) -> usize
    ensures { result ≤ 5 }
{
    match kind {
        IndexKind::Attr(_) => 5,
        _ => 3,
    }
}

// The number of the attribute of an index of one.
fn put_attribute(key: &mut Bytes, kind: IndexKind) -> Result<(), NoMemory>
    ensures { OnOk result (key.new ≡ key.old ++ spec.attribute_number kind) }
{
    match kind {
        IndexKind::Attr(attribute) => put_number(key, attribute),
        _ => Ok(()),
    }
}

/// The number of an index in keys.
pub(crate) fn index_number(kind: IndexKind) -> u8
    ensures { result ≡ spec.index_number kind }
{
    match kind {
        IndexKind::Id => 0,
        IndexKind::Z2 => 1,
        IndexKind::Z3 => 2,
        IndexKind::Xz2 => 3,
        IndexKind::Xz3 => 4,
        IndexKind::Attr(_) => 5,
    }
}

fn put_number(key: &mut Bytes, number: u16) -> Result<(), NoMemory>
    ensures { OnOk result (key.new ≡ key.old ++ big_bytes 2 number) }
{
    let mut two = [0u8; 2];
    BigEndian::write_u16(&mut two, number);
    key.append(&two)
}

fn put_code(key: &mut Bytes, code: u64) -> Result<(), NoMemory>
    ensures { OnOk result (key.new ≡ key.old ++ big_bytes 8 code) }
{
    let mut eight = [0u8; 8];
    BigEndian::write_u64(&mut eight, code);
    key.append(&eight)
}

// Which of the shards of its type an identifier is kept in.
#[tactic(auto, unfolding(crate::specs::Key::shard_of))]
fn shard_of(of: &FeatureType, id: &FeatureId) -> u8
    ensures { result ≡ spec.shard_of of.now id.now }
{
    (fnv1a(id.as_bytes()) % u32::from(of.shards())) as u8
}

/// The keys of a feature in all indexes that its type has enabled, in the order of these. An index
/// that needs a value which is null has none.
pub fn keys_of(alloc: Global, of: &FeatureType, feature: &Feature) -> Result<Items<Bytes>, NoMemory>
    requires { Fits of.now feature.now }
    ensures { IfOk result (λ keys. keys ≡ spec.keys_of of.now feature.now) }
{
    let mut keys = Vec::new(alloc);
    push_key(alloc, of, IndexKind::Id, feature, &mut keys)?;
    push_key(alloc, of, IndexKind::Z2, feature, &mut keys)?;
    push_key(alloc, of, IndexKind::Z3, feature, &mut keys)?;
    push_key(alloc, of, IndexKind::Xz2, feature, &mut keys)?;
    push_key(alloc, of, IndexKind::Xz3, feature, &mut keys)?;
    push_value_keys(alloc, of, feature, &mut keys)?;
    Ok(Items::from_vec(keys))
}

// Adds the keys in the indexes of attributes.
fn push_value_keys(
    alloc: Global,
    of: &FeatureType,
    feature: &Feature,
    keys: &mut Vec<Bytes>,
) -> Result<(), NoMemory>
    requires { Fits of.now feature.now }
    ensures { OnOk result (keys.new.items ≡ keys.old.items
        ++ flat_map (λ kind. spec.keys_in of.now kind feature.now)
        (attribute_indexes 0 (length of.now.attributes))) }
{
    let count = of.attributes().len() as u16;
    'attributes: for attribute in 0..count {
        push_key(alloc, of, IndexKind::Attr(attribute), feature, keys)?;
    }
    Ok(())
}

// Adds the key in an index, if the type has it and the feature what it needs.
fn push_key(
    alloc: Global,
    of: &FeatureType,
    kind: IndexKind,
    feature: &Feature,
    keys: &mut Vec<Bytes>,
) -> Result<(), NoMemory>
    requires { Fits of.now feature.now }
    ensures { OnOk result (keys.new.items
        ≡ keys.old.items ++ spec.keys_in of.now kind feature.now) }
{
    if of.has(kind) {
        if let Some(key) = key_of(alloc, of, kind, feature)? {
            keys.push(key)?;
        }
    }
    Ok(())
}
