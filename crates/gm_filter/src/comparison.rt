// Comparisons of a value with a literal.
ghost use Rattle.std.specs.Prelude.{◌≡◌};
ghost use Rattle.gm_filter.specs.Comparison as spec;
ghost use Rattle.gm_filter.specs.Truth as truth;
ghost use Rattle.gm_filter.specs.declared.filter.Literal.TheVariants as literal;

use crate::{Literal, Op};
use gm_calendar::Instant;
use gm_feature::Value;
use std::cmp::Ordering;

pub(crate) fn compares(op: Op, value: &Value, literal: &Literal) -> bool
    ensures { result ≡ spec.compares op value.now literal.now }
{
    match (value, literal) {
        (Value::Text(text), Literal::Text(other)) => passes(op, text.cmp(other)),
        (Value::Integer(number), Literal::Number(other)) => {
            passes(op, i64::from(*number).cmp(other))
        }
        (Value::Long(number), Literal::Number(other)) => passes(op, number.cmp(other)),
        (Value::Boolean(truth), Literal::Truth(other)) => passes_unordered(op, truth == other),
        (Value::Date(at), Literal::Date(other)) => passes(op, at.cmp(other)),
        _ => false,
    }
}

pub(crate) fn compares_date(op: Op, value: &Value, at: Instant) -> bool
    ensures { result ≡ spec.compares op value.now (literal.Date at) }
{
    match value {
        Value::Date(date) => passes(op, date.cmp(&at)),
        _ => false,
    }
}

pub(crate) fn is_one_of(value: &Value, literals: &[Literal]) -> bool
    ensures { result ≡ truth.is_one_of value.now literals.now }
{
    literals
        .iter()
        .any(|literal| compares(Op::Eq, value, literal))
}

pub(crate) fn passes(op: Op, order: Ordering) -> bool
    ensures { result ≡ spec.passes op order }
{
    match op {
        Op::Eq => order.is_eq(),
        Op::Ne => order.is_ne(),
        Op::Lt => order.is_lt(),
        Op::Le => order.is_le(),
        Op::Gt => order.is_gt(),
        Op::Ge => order.is_ge(),
    }
}

pub(crate) fn passes_unordered(op: Op, same: bool) -> bool
    ensures { result ≡ spec.passes_unordered op same }
{
    match op {
        Op::Eq => same,
        Op::Ne => !same,
        Op::Lt | Op::Le | Op::Gt | Op::Ge => false,
    }
}
