// The names of indexes.
ghost use Rattle.std.specs.Prelude.{◌≡◌, ◌≤◌, length};
ghost use Rattle.gm_types.specs.Index as spec;
ghost use Rattle.gm_types.specs.Specification.{most_attributes};

use crate::dates::place_named;
use crate::words::is_word;
use crate::{Attribute, IndexKind};

// The index of an attribute whose name stands behind `attr:`.
fn attribute_index(attributes: &[Attribute], name: &[u8]) -> Option<IndexKind>
    requires { length attributes.now ≤ most_attributes }
    ensures { result ≡ spec.attribute_meant attributes.now name.now }
{
    if name.len() < 5 {
        return None;
    }
    let (front, rest) = name.split_at(5);
    if !is_word(front, b"attr:") {
        return None;
    }
    let place = place_named(attributes, rest)?;
    Some(IndexKind::Attr(place as u16))
}

/// The index that a name means, where the type has it.
pub(crate) fn index_meant(attributes: &[Attribute], name: &[u8]) -> Option<IndexKind>
    requires { length attributes.now ≤ most_attributes }
    ensures { result ≡ spec.index_meant attributes.now name.now }
{
    if is_word(name, b"id") {
        return Some(IndexKind::Id);
    }
    if is_word(name, b"z2") {
        return Some(IndexKind::Z2);
    }
    if is_word(name, b"z3") {
        return Some(IndexKind::Z3);
    }
    if is_word(name, b"xz2") {
        return Some(IndexKind::Xz2);
    }
    if is_word(name, b"xz3") {
        return Some(IndexKind::Xz3);
    }
    attribute_index(attributes, name)
}
