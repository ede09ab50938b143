// Lists of texts in which none stands twice. They are compared in a sorted set.
ghost use Rattle.std.specs.Prelude.{◌≡◌, map, ℕ, List, IfOk};
ghost use Rattle.gm_types.specs.Distinct.{Notes};
ghost use Rattle.gm_types.specs.Words.{are_distinct};

use crate::{Attribute, AttributeOption, Datum};
use gm_base::{Bytes, NoMemory};
use std::alloc::Global;
use std::collections::BTreeSet;

// Puts a text into the set, and says whether it is new.
fn note(alloc: Global, seen: &mut BTreeSet<Bytes>, text: &[u8]) -> Result<bool, NoMemory>
    ensures { IfOk result (Notes seen.old seen.new text.now) }
{
    let text = Bytes::from_slice(alloc, text)?;
    Ok(seen.insert(text)?)
}

/// What is told from the others of its list by a name or a key.
pub(crate) trait Keyed {
    /// The name or the key.
    ghost key_of: { Self → List ℕ };

    fn key_bytes(&self) -> &[u8]
        ensures { result.now ≡ key_of self.now };
}

impl Keyed for AttributeOption {
    ghost key_of = { λ option. option.key };

    fn key_bytes(&self) -> &[u8] {
        self.key.as_bytes()
    }
}

impl Keyed for Attribute {
    ghost key_of = { λ attribute. attribute.name };

    fn key_bytes(&self) -> &[u8] {
        self.name.as_bytes()
    }
}

impl Keyed for Datum {
    ghost key_of = { λ datum. datum.key };

    fn key_bytes(&self) -> &[u8] {
        self.key.as_bytes()
    }
}

/// Whether the names or keys of a list stand once each.
pub(crate) fn are_distinct<T: Keyed>(alloc: Global, items: &[T]) -> Result<bool, NoMemory>
    ensures { IfOk result (λ distinct. distinct ≡ are_distinct (map T.key_of items.now)) }
{
    let mut seen = BTreeSet::new(alloc);
    for item in items {
        if !note(alloc, &mut seen, item.key_bytes())? {
            return Ok(false);
        }
    }
    Ok(true)
}
