// The values of a feature's bytes, one after the other.
ghost use Rattle.std.specs.Prelude.{◌≡◌, ◌∷◌, List, true};
ghost use Rattle.gm_feature.specs.declared.value.Value.{Value};
ghost use Rattle.gm_feature.specs.Stored.{AreStored, Says};
ghost use Rattle.gm_feature.specs.Value.{is_sound};

use crate::skips::skip_value;
use crate::stored::{StoredValue, stored_value};
use gm_types::Attribute;

/// The bytes of values, one for each of the attributes, in their order. Of other bytes nothing is
/// said.
#[derive(Clone, Copy, Debug)]
pub struct StoredValues<'a> {
    pub attributes: &'a [Attribute],
    pub bytes: &'a [u8],
}

impl<'a> StoredValues<'a> {
    /// The first of the values that are left, which is then left no more. It takes no memory.
    pub fn next(&mut self) -> StoredValue<'a>
        ensures value { (first : Value) (others : List Value) → AreStored self.old (first ∷ others)
            → Says result first }
        ensures sound { (first : Value) (others : List Value) → AreStored self.old (first ∷ others)
            → is_sound first ≡ true }
        ensures left { (first : Value) (others : List Value) → AreStored self.old (first ∷ others)
            → AreStored self.new others }
    {
        let attributes: &'a [Attribute] = self.attributes;
        let bytes: &'a [u8] = self.bytes;
        match attributes.split_first() {
            None => StoredValue::Null,
            Some((attribute, others)) => {
                self.attributes = others;
                self.bytes = skip_value(attribute.kind, bytes);
                stored_value(attribute.kind, bytes)
            }
        }
    }
}
