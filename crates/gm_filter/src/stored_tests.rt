// Comparisons of the value of an attribute that is read in place. No geometry passes one; the arm
// for it shows the prover all types of a value.
ghost use Rattle.std.specs.Prelude.{◌≡◌};
ghost use Rattle.gm_feature.specs.declared.feature.Feature.{Feature};
ghost use Rattle.gm_feature.specs.Feature.{value_at};
ghost use Rattle.gm_feature.specs.Stored.{IsStored};
ghost use Rattle.gm_filter.specs.Comparison as comparison;
ghost use Rattle.gm_filter.specs.Trial.{HasFeature};
ghost use Rattle.gm_filter.specs.Truth as spec;
ghost use Rattle.gm_filter.specs.declared.filter.Literal.TheVariants as literal;

use crate::stored_comparison::{
    compares_stored, compares_stored_date, is_between, is_during, is_stored_like, is_stored_one_of,
};
use crate::{Literal, Op};
use gm_base::Text;
use gm_calendar::Instant;
use gm_feature::{Stored, StoredValue};

pub(crate) fn compares_at(stored: &Stored<'_>, at: u16, op: Op, literal: &Literal) -> bool
    ensures { (f : Feature) → IsStored stored.now f
        → result ≡ comparison.compares op (value_at f at) literal.now }
{
    match stored.value(at) {
        StoredValue::Geometry(_geometry) => false,
        seen => compares_stored(op, &seen, literal),
    }
}

pub(crate) fn compares_date_at(stored: &Stored<'_>, at: u16, op: Op, date: Instant) -> bool
    ensures { (f : Feature) → IsStored stored.now f
        → result ≡ comparison.compares op (value_at f at) (literal.Date date) }
{
    match stored.value(at) {
        StoredValue::Geometry(_geometry) => false,
        seen => compares_stored_date(op, &seen, date),
    }
}

pub(crate) fn is_between_at(stored: &Stored<'_>, at: u16, low: &Literal, high: &Literal) -> bool
    ensures { (f : Feature) → IsStored stored.now f
        → result ≡ spec.lies_between (value_at f at) low.now high.now }
{
    match stored.value(at) {
        StoredValue::Geometry(_geometry) => false,
        seen => is_between(&seen, low, high),
    }
}

pub(crate) fn is_during_at(stored: &Stored<'_>, at: u16, low: Instant, high: Instant) -> bool
    ensures { (f : Feature) → IsStored stored.now f
        → result ≡ spec.lies_during (value_at f at) (literal.Date low) (literal.Date high) }
{
    match stored.value(at) {
        StoredValue::Geometry(_geometry) => false,
        seen => is_during(&seen, low, high),
    }
}

pub(crate) fn is_one_of_at(stored: &Stored<'_>, at: u16, literals: &[Literal]) -> bool
    ensures { (f : Feature) → IsStored stored.now f
        → result ≡ spec.is_one_of (value_at f at) literals.now }
{
    match stored.value(at) {
        StoredValue::Geometry(_geometry) => false,
        seen => is_stored_one_of(&seen, literals),
    }
}

pub(crate) fn is_null_at(stored: &Stored<'_>, at: u16) -> bool
    ensures { (f : Feature) → IsStored stored.now f
        → result ≡ spec.is_null_value (value_at f at) }
{
    stored.is_null(at)
}

pub(crate) fn is_like_at(stored: &Stored<'_>, at: u16, pattern: &Text) -> bool
    requires { HasFeature stored.now }
    ensures { (f : Feature) → IsStored stored.now f
        → result ≡ spec.is_text_like pattern.now (value_at f at) }
{
    match stored.value(at) {
        StoredValue::Geometry(_geometry) => false,
        seen => is_stored_like(pattern, &seen),
    }
}
