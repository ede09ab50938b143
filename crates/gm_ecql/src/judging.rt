// What a test asks of a type: the filter that it stands for, an unknown name, or a literal that
// does not go with its attribute.
ghost use Rattle.std.specs.Prelude.{◌≡◌, map, option_map, IfOk};
ghost use Rattle.gm_types.specs.Specification.{kind_at};
ghost use Rattle.gm_filter.specs.Tree.{tree};
ghost use Rattle.gm_ecql.specs.Token.{seen_all, undoubled};
ghost use Rattle.gm_ecql.specs.Test.{asked_seen, constant_seen, corners_seen, test_seen};
ghost use Rattle.gm_ecql.specs.Halt.{Gives, Passes};
ghost use Rattle.gm_ecql.specs.Judging as spec;

use crate::geometry::{Piece, geometry_of};
use crate::halt::Halt;
use crate::test::{Asked, Constant, Corners, Relation, Test, Timing};
use crate::text::undouble;
use gm_base::NoMemory;
use gm_calendar::{Instant, instants_are_spelled, read_instant};
use gm_filter::{Filter, Literal, LiteralList, Op, TextList, suits};
use gm_geom::{Box2, Geometry, Point, read_fixed};
use gm_types::{FeatureType, Kind};
use std::alloc::Global;

/// The first name that is no attribute, and the attribute of the first literal that breaks a rule.
#[derive(Clone, Copy, Debug)]
pub struct Faults<'a> {
    pub unknown: Option<&'a str>,
    pub bad: Option<&'a str>,
}

/// The filter of what was read, where it has no fault.
#[derive(Debug, Drop)]
pub struct Found<'a> {
    pub filter: Filter,
    pub faults: Faults<'a>,
}

/// No fault.
pub fn faultless<'a>() -> Faults<'a>
    ensures { spec.faults_seen result ≡ spec.faultless }
{
    Faults {
        unknown: None,
        bad: None,
    }
}

/// The first faults of both, one read behind the other.
pub fn first_faults<'a>(earlier: Faults<'a>, later: Faults<'a>) -> Faults<'a>
    ensures { spec.faults_seen result
        ≡ spec.first_faults (spec.faults_seen earlier.entry) (spec.faults_seen later.entry) }
{
    Faults {
        unknown: first_name(earlier.unknown, later.unknown),
        bad: first_name(earlier.bad, later.bad),
    }
}

fn first_name<'a>(earlier: Option<&'a str>, later: Option<&'a str>) -> Option<&'a str>
    ensures { option_map (λ n. n.now) result
        ≡ spec.first_name (option_map (λ n. n.now) earlier.entry)
        (option_map (λ n. n.now) later.entry) }
{
    earlier.or(later)
}

fn sound<'a>(filter: Filter) -> Found<'a>
    ensures { spec.found_seen result ≡ spec.sound (tree filter) }
{
    Found {
        filter,
        faults: faultless(),
    }
}

fn unknown<'a>(name: &'a str) -> Found<'a>
    ensures { spec.found_seen result ≡ spec.unknown name.now }
{
    Found {
        filter: Filter::Exclude,
        faults: Faults {
            unknown: Some(name),
            bad: None,
        },
    }
}

fn bad<'a>(name: &'a str) -> Found<'a>
    ensures { spec.found_seen result ≡ spec.bad name.now }
{
    Found {
        filter: Filter::Exclude,
        faults: Faults {
            unknown: None,
            bad: Some(name),
        },
    }
}

/// What the test stands for. A syntax fault where the tokens of a geometry spell none.
#[tactic(auto, unfolding(crate::specs::Judging::judged))]
pub fn judge<'a>(alloc: Global, of: &FeatureType, test: &Test<'a>) -> Result<Found<'a>, Halt>
    ensures { Gives spec.found_seen (spec.judged of.now (test_seen test.now)) result }
{
    match test {
        Test::Include => Ok(sound(Filter::Include)),
        Test::Exclude => Ok(sound(Filter::Exclude)),
        Test::Ids(texts) => Ok(sound(Filter::Ids(texts_of(alloc, texts)?))),
        Test::Named(name, asked) => judge_named(alloc, of, name, asked),
    }
}

fn texts_of(alloc: Global, texts: &[&str]) -> Result<TextList, NoMemory>
    ensures { IfOk result (λ list. list ≡ map (λ t. undoubled t.now) texts.now) }
{
    let mut list = TextList::new(alloc);
    'texts: for text in texts {
        list.push(undouble(alloc, text)?)?;
    }
    Ok(list)
}

fn judge_named<'a>(
    alloc: Global,
    of: &FeatureType,
    name: &'a str,
    asked: &Asked<'a>,
) -> Result<Found<'a>, Halt>
    ensures { Gives spec.found_seen
        (spec.judged_named of.now name.now (asked_seen asked.now)) result }
{
    match of.attribute_named(name.as_bytes()) {
        None => {
            spell(alloc, asked)?;
            Ok(unknown(name))
        }
        Some(at) => {
            let candidate = candidate(alloc, at, is_date(of, at), asked)?;
            Ok(kept(of, name, candidate))
        }
    }
}

// The filter, where it suits the type.
fn kept<'a>(of: &FeatureType, name: &'a str, candidate: Option<Filter>) -> Found<'a>
    ensures { spec.found_seen result ≡ spec.kept of.now name.now (option_map tree candidate) }
{
    match candidate {
        None => bad(name),
        Some(filter) => {
            if suits(&filter, of) {
                return sound(filter);
            }
            bad(name)
        }
    }
}

// A syntax fault where the tokens of a geometry spell none.
fn spell(alloc: Global, asked: &Asked<'_>) -> Result<(), Halt>
    ensures { Passes (spec.is_spelled (asked_seen asked.now)) result }
{
    match asked {
        Asked::Related(_, piece) => {
            let _geometry = geometry_of(alloc, piece)?;
            Ok(())
        }
        _ => Ok(()),
    }
}

// Whether the attribute is of dates.
fn is_date(of: &FeatureType, at: u16) -> bool
    ensures { result ≡ spec.is_date_kind (kind_at of.now at) }
{
    match of.attributes().as_slice().get(at as usize) {
        Some(attribute) => matches!(attribute.kind, Kind::Date),
        None => false,
    }
}

// The filter that the test of an attribute stands for, if its literals stand for any.
fn candidate(alloc: Global, at: u16, date: bool, asked: &Asked<'_>) -> Result<Option<Filter>, Halt>
    ensures { Gives (λ f. option_map tree f)
        (spec.candidate at date (asked_seen asked.now)) result }
{
    match asked {
        Asked::Bbox(corners, system) => Ok(bbox_of(at, corners, *system)),
        Asked::Related(relation, piece) => related_of(alloc, at, *relation, piece),
        Asked::Compared(op, constant) => Ok(compared_of(alloc, at, date, *op, constant)?),
        Asked::Between(negated, low, high) => {
            let filter = between_of(alloc, at, date, low, high)?;
            Ok(negated_if(alloc, *negated, filter)?)
        }
        Asked::Like(negated, pattern) => {
            let filter = Some(Filter::Like(at, undouble(alloc, pattern)?));
            Ok(negated_if(alloc, *negated, filter)?)
        }
        Asked::OneOf(negated, constants) => {
            let filter = one_of(alloc, at, date, constants)?;
            Ok(negated_if(alloc, *negated, filter)?)
        }
        Asked::Null(negated) => Ok(negated_if(alloc, *negated, Some(Filter::IsNull(at)))?),
        Asked::During(low, high) => Ok(Some(Filter::During(at, **low, **high))),
        Asked::Timed(timing, instant) => Ok(Some(timed_of(at, *timing, **instant))),
    }
}

fn negated_if(
    alloc: Global,
    negated: bool,
    filter: Option<Filter>,
) -> Result<Option<Filter>, NoMemory>
    ensures { IfOk result (λ f. option_map tree f
        ≡ spec.negated_if negated (option_map tree filter)) }
{
    match filter {
        None => Ok(None),
        Some(filter) => {
            if negated {
                return Ok(Some(Filter::Not(Box::new(alloc, filter)?)));
            }
            Ok(Some(filter))
        }
    }
}

fn fixed_of(number: &str) -> Option<i32>
    ensures { result ≡ spec.fixed_in_range number.now }
{
    match read_fixed(number.as_bytes()) {
        Ok(value) => Some(value),
        Err(_) => None,
    }
}

fn box_of(corners: &Corners<'_>) -> Option<Box2>
    ensures { result ≡ spec.box_of (corners_seen corners.now) }
{
    let low = Point {
        x: fixed_of(corners.low_x)?,
        y: fixed_of(corners.low_y)?,
    };
    let high = Point {
        x: fixed_of(corners.high_x)?,
        y: fixed_of(corners.high_y)?,
    };
    Some(Box2 { low, high })
}

// None is given, or the only one that is known.
fn is_known_system(system: Option<&str>) -> bool
    ensures { result ≡ spec.is_known_system (option_map (λ t. undoubled t.now) system.entry) }
{
    match system {
        None => true,
        Some(name) => name.as_bytes() == b"EPSG:4326".as_slice(),
    }
}

fn bbox_of(at: u16, corners: &Corners<'_>, system: Option<&str>) -> Option<Filter>
    ensures { option_map tree result ≡ spec.bbox_of at (corners_seen corners.now)
        (option_map (λ t. undoubled t.now) system.entry) }
{
    if !is_known_system(system) {
        return None;
    }
    match box_of(corners) {
        None => None,
        Some(area) => Some(Filter::Bbox(at, area)),
    }
}

fn lies(at: u16, relation: Relation, geometry: Geometry) -> Filter
    ensures { tree result ≡ spec.lies at relation geometry }
{
    match relation {
        Relation::Intersects => Filter::Intersects(at, geometry),
        Relation::Disjoint => Filter::Disjoint(at, geometry),
        Relation::Within => Filter::Within(at, geometry),
    }
}

fn related_of(
    alloc: Global,
    at: u16,
    relation: Relation,
    piece: &Piece<'_>,
) -> Result<Option<Filter>, Halt>
    ensures { Gives (λ f. option_map tree f)
        (spec.related_of at relation (seen_all piece.now.tokens.now)) result }
{
    match geometry_of(alloc, piece)? {
        None => Ok(None),
        Some(geometry) => Ok(Some(lies(at, relation, geometry))),
    }
}

fn timed_of(at: u16, timing: Timing, instant: Instant) -> Filter
    ensures { tree result ≡ spec.timed_of at timing instant }
{
    match timing {
        Timing::Before => Filter::Before(at, instant),
        Timing::After => Filter::After(at, instant),
        Timing::Tequals => Filter::Tequals(at, instant),
    }
}

// A whole number, of 64 bits.
fn whole_of(number: &str) -> Option<i64>
    ensures { result ≡ spec.whole_of number.now }
{
    match number.parse::<i64>() {
        Ok(value) => Some(value),
        Err(_) => None,
    }
}

fn text_literal(alloc: Global, date: bool, text: &str) -> Result<Option<Literal>, NoMemory>
    ensures { IfOk result (λ l. l ≡ spec.text_literal date (undoubled text.now)) }
{
    if !date {
        return Ok(Some(Literal::Text(undouble(alloc, text)?)));
    }
    // A text with a quote spells no instant, so that its quotes may stand as they are.
    instants_are_spelled();
    match read_instant(text.as_bytes()) {
        None => Ok(None),
        Some(at) => Ok(Some(Literal::Date(at))),
    }
}

/// The literal that is meant, if there is one. With dates a text is the instant that it spells.
pub fn literal_of(
    alloc: Global,
    date: bool,
    constant: &Constant<'_>,
) -> Result<Option<Literal>, NoMemory>
    ensures { IfOk result (λ l. l ≡ spec.literal_of date (constant_seen constant.now)) }
{
    match constant {
        Constant::Text(text) => text_literal(alloc, date, text),
        Constant::Number(number) => match whole_of(number) {
            None => Ok(None),
            Some(value) => Ok(Some(Literal::Number(value))),
        },
        Constant::Instant(at) => Ok(Some(Literal::Date(**at))),
        Constant::Truth(truth) => Ok(Some(Literal::Truth(*truth))),
    }
}

fn compared_of(
    alloc: Global,
    at: u16,
    date: bool,
    op: Op,
    constant: &Constant<'_>,
) -> Result<Option<Filter>, NoMemory>
    ensures { IfOk result (λ f. option_map tree f
        ≡ spec.compared_of at date op (constant_seen constant.now)) }
{
    match literal_of(alloc, date, constant)? {
        None => Ok(None),
        Some(literal) => Ok(Some(Filter::Compare(at, op, literal))),
    }
}

fn between_of(
    alloc: Global,
    at: u16,
    date: bool,
    low: &Constant<'_>,
    high: &Constant<'_>,
) -> Result<Option<Filter>, NoMemory>
    ensures { IfOk result (λ f. option_map tree f
        ≡ spec.between_of at date (constant_seen low.now) (constant_seen high.now)) }
{
    match (
        literal_of(alloc, date, low)?,
        literal_of(alloc, date, high)?,
    ) {
        (Some(low), Some(high)) => Ok(Some(Filter::Between(at, low, high))),
        _ => Ok(None),
    }
}

fn literals_of(
    alloc: Global,
    date: bool,
    constants: &[Constant<'_>],
) -> Result<Option<LiteralList>, NoMemory>
    ensures { IfOk result (λ ls. ls ≡ spec.literals_of date (map constant_seen constants.now)) }
{
    let mut literals = LiteralList::new(alloc);
    'constants: for constant in constants {
        match literal_of(alloc, date, constant)? {
            None => return Ok(None),
            Some(literal) => literals.push(literal)?,
        }
    }
    Ok(Some(literals))
}

fn one_of(
    alloc: Global,
    at: u16,
    date: bool,
    constants: &[Constant<'_>],
) -> Result<Option<Filter>, NoMemory>
    ensures { IfOk result (λ f. option_map tree f
        ≡ spec.one_of_literals at date (map constant_seen constants.now)) }
{
    match literals_of(alloc, date, constants)? {
        None => Ok(None),
        Some(literals) => Ok(Some(Filter::OneOf(at, literals))),
    }
}
