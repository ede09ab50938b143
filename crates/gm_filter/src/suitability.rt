// Whether a filter suits a type.
ghost use Rattle.std.specs.Prelude.{◌≡◌, ◌&&◌, ◌^◌, nat_le, length, map};
ghost use Rattle.std.specs.List.{list_all};
ghost use Rattle.std.specs.Str.{is_utf8 as spec_utf8};
ghost use Rattle.gm_calendar.specs.Instant as calendar;
ghost use Rattle.gm_types.specs.Kind as kinds;
ghost use Rattle.gm_types.specs.Specification.{kind_at};
ghost use Rattle.gm_feature.specs.Value.{is_below};
ghost use Rattle.gm_filter.specs.Suitability as spec;
ghost use Rattle.gm_filter.specs.Suitability.{passes_kind};
ghost use Rattle.gm_filter.specs.Tree.{tree, trees_of, members_of};

use crate::{Filter, Literal, Op};
use gm_base::Text;
use gm_calendar::Instant;
use gm_geom::{Box2, Geometry, check, is_point_in_world};
use gm_types::{FeatureType, GeoKind, Kind};

/// Whether each And and Or of the filter has two or more members, each list one or more, and each
/// test speaks of an attribute of the type and of what may be asked of its kind. It takes no
/// memory, and its recursion is as deep as the filter.
#[cycle(suiting)]
pub fn suits(filter: &Filter, of: &FeatureType) -> bool
    ensures { result ≡ spec.suits of.now (tree filter.now) }
{
    match filter {
        Filter::Include => true,
        Filter::Exclude => true,
        Filter::Not(inner) => suits(inner, of),
        Filter::And(members) => have_two(members) && all_suit(members, of),
        Filter::Or(members) => have_two(members) && all_suit(members, of),
        Filter::Compare(at, op, literal) => may_compare(*op, literal, kind_of(of, *at)),
        Filter::Between(at, low, high) => may_lie_between(low, high, kind_of(of, *at)),
        Filter::Like(at, pattern) => is_utf8(pattern) && is_text(kind_of(of, *at)),
        Filter::OneOf(at, literals) => {
            !literals.is_empty() && may_be_one_of(literals.as_slice(), kind_of(of, *at))
        }
        Filter::IsNull(at) => kind_of(of, *at).is_some(),
        Filter::Ids(texts) => !texts.is_empty() && are_utf8(texts.as_slice()),
        Filter::Bbox(at, area) => is_box(*area) && is_geometry(kind_of(of, *at)),
        Filter::Intersects(at, geometry) => is_kept(geometry) && is_geometry(kind_of(of, *at)),
        Filter::Disjoint(at, geometry) => is_kept(geometry) && is_geometry(kind_of(of, *at)),
        Filter::Within(at, area) => is_kept_area(area) && is_point(kind_of(of, *at)),
        Filter::During(at, low, high) => are_instants(*low, *high) && is_date(kind_of(of, *at)),
        Filter::Before(at, end) => is_instant(*end) && is_date(kind_of(of, *at)),
        Filter::After(at, start) => is_instant(*start) && is_date(kind_of(of, *at)),
        Filter::Tequals(at, instant) => is_instant(*instant) && is_date(kind_of(of, *at)),
    }
}

#[cycle(suiting)]
fn all_suit(filters: &[Filter], of: &FeatureType) -> bool
    ensures { result ≡ spec.all_suit of.now (trees_of (map tree filters.now)) }
{
    'members: for filter in filters {
        if !suits(filter, of) {
            return false;
        }
    }
    true
}

fn have_two(filters: &[Filter]) -> bool
    ensures { result ≡ nat_le 2 (length (members_of (trees_of (map tree filters.now)))) }
{
    filters.len() >= 2
}

fn kind_of(of: &FeatureType, at: u16) -> Option<Kind>
    ensures { result ≡ kind_at of.now at }
{
    let attribute = of.attributes().as_slice().get(at as usize)?;
    Some(attribute.kind)
}

fn may_compare(op: Op, literal: &Literal, kind: Option<Kind>) -> bool
    ensures { result ≡ passes_kind (spec.may_compare op literal.now) kind }
{
    match kind {
        None => false,
        Some(kind) => is_op_of(kind, op) && is_literal_of(kind, literal),
    }
}

fn may_lie_between(low: &Literal, high: &Literal, kind: Option<Kind>) -> bool
    ensures { result ≡ passes_kind (spec.may_lie_between low.now high.now) kind }
{
    match kind {
        None => false,
        Some(kind) => { is_ordered(kind) && is_literal_of(kind, low) && is_literal_of(kind, high) }
    }
}

fn may_be_one_of(literals: &[Literal], kind: Option<Kind>) -> bool
    ensures { result ≡ passes_kind (spec.may_be_one_of literals.now) kind }
{
    match kind {
        None => false,
        Some(kind) => are_literals_of(kind, literals),
    }
}

fn are_literals_of(kind: Kind, literals: &[Literal]) -> bool
    ensures { result ≡ list_all (spec.is_literal_of kind) literals.now }
{
    literals.iter().all(|literal| is_literal_of(kind, literal))
}

fn is_op_of(kind: Kind, op: Op) -> bool
    ensures { result ≡ spec.is_op_of kind op }
{
    match op {
        Op::Eq | Op::Ne => true,
        Op::Lt | Op::Le | Op::Gt | Op::Ge => is_ordered(kind),
    }
}

fn is_ordered(kind: Kind) -> bool
    ensures { result ≡ spec.is_ordered kind }
{
    match kind {
        Kind::Text | Kind::Integer | Kind::Long | Kind::Date => true,
        Kind::Boolean | Kind::Geo(_) => false,
    }
}

fn is_literal_of(kind: Kind, literal: &Literal) -> bool
    ensures { result ≡ spec.is_literal_of kind literal.now }
{
    match (kind, literal) {
        (Kind::Text, Literal::Text(text)) => is_utf8(text),
        (Kind::Integer, Literal::Number(number)) => is_integer(*number),
        (Kind::Long, Literal::Number(number)) => is_long(*number),
        (Kind::Boolean, Literal::Truth(_)) => true,
        (Kind::Date, Literal::Date(at)) => is_instant(*at),
        _ => false,
    }
}

fn is_integer(number: i64) -> bool
    ensures { result ≡ is_below (2 ^ 31) number }
{
    i64::from(i32::MIN) <= number && number <= i64::from(i32::MAX)
}

// Each number of 64 bits is. It is read for the proof alone, which sees the range of its type.
fn is_long(number: i64) -> bool
    ensures { result ≡ is_below (2 ^ 63) number }
{
    let _range = number;
    true
}

// Each text is, by its type.
fn is_utf8(text: &Text) -> bool
    ensures { result ≡ spec_utf8 text.now }
{
    let _bytes = text.as_bytes();
    true
}

fn are_utf8(texts: &[Text]) -> bool
    ensures { result ≡ list_all spec_utf8 texts.now }
{
    texts.iter().all(|text| is_utf8(text))
}

// Each instant is, by its type.
fn is_instant(at: Instant) -> bool
    ensures { result ≡ calendar.is_instant at }
{
    let _ms = at.ms();
    true
}

fn are_instants(low: Instant, high: Instant) -> bool
    ensures { result ≡ (calendar.is_instant low && calendar.is_instant high) }
{
    is_instant(low) && is_instant(high)
}

fn is_text(kind: Option<Kind>) -> bool
    ensures { result ≡ passes_kind spec.is_text kind }
{
    matches!(kind, Some(Kind::Text))
}

fn is_date(kind: Option<Kind>) -> bool
    ensures { result ≡ passes_kind kinds.is_date kind }
{
    matches!(kind, Some(Kind::Date))
}

fn is_geometry(kind: Option<Kind>) -> bool
    ensures { result ≡ passes_kind kinds.is_geometry kind }
{
    matches!(kind, Some(Kind::Geo(_)))
}

fn is_point(kind: Option<Kind>) -> bool
    ensures { result ≡ passes_kind spec.is_point_kind kind }
{
    matches!(kind, Some(Kind::Geo(GeoKind::Point)))
}

fn is_kept(geometry: &Geometry) -> bool
    ensures { result ≡ spec.is_kept geometry.now }
{
    check(geometry).is_ok()
}

fn is_kept_area(geometry: &Geometry) -> bool
    ensures { result ≡ (spec.has_area geometry.now && spec.is_kept geometry.now) }
{
    match geometry {
        Geometry::Area(_) | Geometry::ManyAreas(_) => is_kept(geometry),
        _ => false,
    }
}

fn is_box(area: Box2) -> bool
    ensures { result ≡ spec.is_box area }
{
    is_point_in_world(area.low)
        && is_point_in_world(area.high)
        && area.low.x <= area.high.x
        && area.low.y <= area.high.y
}
