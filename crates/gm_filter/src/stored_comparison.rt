// Comparisons of a value in place with a literal. What is said of a value holds of each that the
// bytes are.
ghost use Rattle.std.specs.Prelude.{◌≡◌, true};
ghost use Rattle.gm_feature.specs.declared.value.Value.{Value};
ghost use Rattle.gm_feature.specs.Stored.{Says};
ghost use Rattle.gm_feature.specs.Value.{is_sound};
ghost use Rattle.gm_filter.specs.Comparison as spec;
ghost use Rattle.gm_filter.specs.Truth as truth;
ghost use Rattle.gm_filter.specs.declared.filter.Literal.TheVariants as literal;

use crate::comparison::{passes, passes_unordered};
use crate::{Literal, Op, like};
use gm_base::Text;
use gm_calendar::Instant;
use gm_feature::StoredValue;

pub(crate) fn compares_stored(op: Op, value: &StoredValue<'_>, literal: &Literal) -> bool
    ensures { (v : Value) → Says value.now v → result ≡ spec.compares op v literal.now }
{
    match (value, literal) {
        (StoredValue::Text(bytes), Literal::Text(other)) => {
            passes(op, bytes.cmp(&other.as_bytes()))
        }
        (StoredValue::Integer(number), Literal::Number(other)) => {
            passes(op, i64::from(*number).cmp(other))
        }
        (StoredValue::Long(number), Literal::Number(other)) => passes(op, number.cmp(other)),
        (StoredValue::Boolean(truth), Literal::Truth(other)) => {
            passes_unordered(op, truth == other)
        }
        (StoredValue::Date(at), Literal::Date(other)) => passes(op, at.cmp(other)),
        _ => false,
    }
}

pub(crate) fn compares_stored_date(op: Op, value: &StoredValue<'_>, at: Instant) -> bool
    ensures { (v : Value) → Says value.now v → result ≡ spec.compares op v (literal.Date at) }
{
    match value {
        StoredValue::Date(date) => passes(op, date.cmp(&at)),
        _ => false,
    }
}

pub(crate) fn is_between(value: &StoredValue<'_>, low: &Literal, high: &Literal) -> bool
    ensures { (v : Value) → Says value.now v → result ≡ truth.lies_between v low.now high.now }
{
    compares_stored(Op::Ge, value, low) && compares_stored(Op::Le, value, high)
}

pub(crate) fn is_during(value: &StoredValue<'_>, low: Instant, high: Instant) -> bool
    ensures { (v : Value) → Says value.now v
        → result ≡ truth.lies_during v (literal.Date low) (literal.Date high) }
{
    compares_stored_date(Op::Gt, value, low) && compares_stored_date(Op::Lt, value, high)
}

pub(crate) fn is_stored_one_of(value: &StoredValue<'_>, literals: &[Literal]) -> bool
    ensures { (v : Value) → Says value.now v → result ≡ truth.is_one_of v literals.now }
{
    literals
        .iter()
        .any(|literal| compares_stored(Op::Eq, value, literal))
}

// Over the bytes of the text, which are UTF-8 where the value is sound.
pub(crate) fn is_stored_like(pattern: &Text, value: &StoredValue<'_>) -> bool
    requires { (v : Value) × Says value.now v × (is_sound v ≡ true) }
    ensures { (v : Value) → Says value.now v → result ≡ truth.is_text_like pattern.now v }
{
    match value {
        StoredValue::Text(bytes) => like(pattern.as_bytes(), bytes),
        _ => false,
    }
}
