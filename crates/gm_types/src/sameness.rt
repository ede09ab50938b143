// When two types are the same.
ghost use Rattle.std.specs.Prelude.{◌≡◌, ◌&&◌, ◌==◌, ◌↔◌, IsTrue, IfOk};
ghost use Rattle.gm_types.specs.Words.{same_text};

use crate::{FeatureType, print_spec};
use gm_base::{NoMemory, Text};
use std::alloc::Global;

fn has_same_name(one: &FeatureType, two: &FeatureType) -> bool
    ensures { result ≡ ((one.now.number == two.now.number) && same_text one.now.name two.now.name) }
{
    one.number() == two.number() && one.name().as_bytes() == two.name().as_bytes()
}

fn is_same_text(one: &Text, two: &Text) -> bool
    ensures { result ≡ same_text one.now two.now }
{
    one.as_bytes() == two.as_bytes()
}

fn are_alike(one: &FeatureType, two: &FeatureType, text: &Text, other: &Text) -> bool
    ensures { result ≡ (((one.now.number == two.now.number) && same_text one.now.name two.now.name)
        && same_text text.now other.now) }
{
    has_same_name(one, two) && is_same_text(text, other)
}

/// Whether two types are the same: of one name and number, and with one canonical text.
pub fn is_same(alloc: Global, one: &FeatureType, two: &FeatureType) -> Result<bool, NoMemory>
    ensures { IfOk result (λ same. IsTrue same ↔ (one.now ≡ two.now)) }
{
    // For the proof alone: both are types that break no rule.
    let _one = one.attributes();
    let _two = two.attributes();
    let text = print_spec(alloc, one)?;
    let other = print_spec(alloc, two)?;
    Ok(are_alike(one, two, &text, &other))
}
