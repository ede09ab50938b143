// Whether a filter is true of a feature.
ghost use Rattle.std.specs.Prelude.{◌≡◌, None, map};
ghost use Rattle.std.specs.List.{list_any};
ghost use Rattle.std.specs.Str.{bytes_eq};
ghost use Rattle.gm_geom.specs.Validity.{fault_of};
ghost use Rattle.gm_shapes.specs.Meeting.{box_area};
ghost use Rattle.gm_filter.specs.Suitability.{SuitOneType};
ghost use Rattle.gm_filter.specs.Tree.{tree, trees_of};
ghost use Rattle.gm_filter.specs.Trial.{MayTry, MayTryAll, IsKeptValue, IsRisingBox};
ghost use Rattle.gm_filter.specs.Truth as spec;
ghost use Rattle.gm_filter.specs.Truth.{is_true, are_all_true, is_any_true};

use crate::comparison::{compares, compares_date, is_one_of};
use crate::{Filter, Op, TextList, like};
use gm_base::Text;
use gm_feature::{Feature, Value};
use gm_geom::{Box2, Geometry};
use gm_shapes::{intersects, meets_box};

/// Whether the filter is true of the feature, where both suit one type. It takes no memory, and its
/// recursion is as deep as the filter.
pub fn holds(filter: &Filter, feature: &Feature) -> bool
    requires { SuitOneType (tree filter.now) feature.now }
    ensures { result ≡ is_true feature.now (tree filter.now) }
{
    is_passed(filter, feature)
}

#[cycle(passing)]
fn is_passed(filter: &Filter, feature: &Feature) -> bool
    requires { MayTry feature.now (tree filter.now) }
    ensures { result ≡ is_true feature.now (tree filter.now) }
{
    match filter {
        Filter::Include => true,
        Filter::Exclude => false,
        Filter::Not(inner) => !is_passed(inner, feature),
        Filter::And(members) => are_all_passed(members, feature),
        Filter::Or(members) => is_any_passed(members, feature),
        Filter::Compare(at, op, literal) => compares(*op, feature.value(*at), literal),
        Filter::Between(at, low, high) => {
            let value = feature.value(*at);
            compares(Op::Ge, value, low) && compares(Op::Le, value, high)
        }
        Filter::Like(at, pattern) => is_text_like(pattern, feature.value(*at)),
        Filter::OneOf(at, literals) => is_one_of(feature.value(*at), literals.as_slice()),
        Filter::IsNull(at) => is_null(feature.value(*at)),
        Filter::Ids(texts) => is_among(feature.id.as_bytes(), texts),
        Filter::Bbox(at, area) => meets_area(feature.value(*at), *area),
        Filter::Intersects(at, geometry) => meets(feature.value(*at), geometry),
        Filter::Disjoint(at, geometry) => is_apart(feature.value(*at), geometry),
        Filter::Within(at, geometry) => is_within(feature.value(*at), geometry),
        Filter::During(at, low, high) => {
            let value = feature.value(*at);
            compares_date(Op::Gt, value, *low) && compares_date(Op::Lt, value, *high)
        }
        Filter::Before(at, end) => compares_date(Op::Lt, feature.value(*at), *end),
        Filter::After(at, start) => compares_date(Op::Gt, feature.value(*at), *start),
        Filter::Tequals(at, instant) => compares_date(Op::Eq, feature.value(*at), *instant),
    }
}

#[cycle(passing)]
fn are_all_passed(filters: &[Filter], feature: &Feature) -> bool
    requires { MayTryAll feature.now (trees_of (map tree filters.now)) }
    ensures { result ≡ are_all_true feature.now (trees_of (map tree filters.now)) }
{
    'members: for filter in filters {
        if !is_passed(filter, feature) {
            return false;
        }
    }
    true
}

#[cycle(passing)]
fn is_any_passed(filters: &[Filter], feature: &Feature) -> bool
    requires { MayTryAll feature.now (trees_of (map tree filters.now)) }
    ensures { result ≡ is_any_true feature.now (trees_of (map tree filters.now)) }
{
    'members: for filter in filters {
        if is_passed(filter, feature) {
            return true;
        }
    }
    false
}

fn is_null(value: &Value) -> bool
    ensures { result ≡ spec.is_null_value value.now }
{
    matches!(value, Value::Null)
}

fn is_text_like(pattern: &Text, value: &Value) -> bool
    ensures { result ≡ spec.is_text_like pattern.now value.now }
{
    match value {
        Value::Text(text) => like(pattern.as_bytes(), text.as_bytes()),
        _ => false,
    }
}

pub(crate) fn is_among(id: &[u8], texts: &TextList) -> bool
    ensures { result ≡ list_any (bytes_eq id.now) texts.now }
{
    texts.as_slice().iter().any(|text| id == text.as_bytes())
}

fn meets_area(value: &Value, area: Box2) -> bool
    requires value_kept { IsKeptValue value.now }
    requires rising { IsRisingBox area }
    ensures { result ≡ spec.meets value.now (box_area area) }
{
    match value {
        Value::Geo(geometry) => meets_box(geometry, area),
        _ => false,
    }
}

fn meets(value: &Value, other: &Geometry) -> bool
    requires value_kept { IsKeptValue value.now }
    requires kept { fault_of other.now ≡ None }
    ensures { result ≡ spec.meets value.now other.now }
{
    match value {
        Value::Geo(geometry) => intersects(geometry, other),
        _ => false,
    }
}

fn is_apart(value: &Value, other: &Geometry) -> bool
    requires value_kept { IsKeptValue value.now }
    requires kept { fault_of other.now ≡ None }
    ensures { result ≡ spec.is_apart value.now other.now }
{
    match value {
        Value::Geo(geometry) => !intersects(geometry, other),
        _ => false,
    }
}

fn is_within(value: &Value, area: &Geometry) -> bool
    ensures { result ≡ spec.is_within value.now area.now }
{
    match value {
        Value::Geo(Geometry::Point(point)) => gm_shapes::within(*point, area),
        _ => false,
    }
}
