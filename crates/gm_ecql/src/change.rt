// Changes: an attribute, its new value, and of which features.
ghost use Rattle.std.specs.Prelude.{◌≡◌, option_map, IfErr, IfOk};
ghost use Rattle.gm_types.specs.Specification.{kind_at};
ghost use Rattle.gm_ecql.specs.Change as spec;
ghost use Rattle.gm_ecql.specs.Change.{JudgedChange, SpellsChangeJudged, assigned_seen};
ghost use Rattle.gm_ecql.specs.Change.{change_seen, given_seen};
ghost use Rattle.gm_ecql.specs.Halt.{Gives, Passes};
ghost use Rattle.gm_ecql.specs.Test.{constant_seen};
ghost use Rattle.gm_ecql.specs.Token.{seen_all};

use crate::geometry::{Piece, geometry_of, piece_at};
use crate::halt::Halt;
use crate::judging::{Faults, faultless, first_faults, literal_of};
use crate::keyword::Keyword;
use crate::parser::parse;
use crate::parts::{after_keyword, constant_at, name_at};
use crate::test::Constant;
use crate::token::Spaced;
use gm_base::NoMemory;
use gm_feature::{Value, value_fits};
use gm_filter::{Filter, Literal};
use gm_types::{FeatureType, Kind};
use std::alloc::Global;

/// A new value of the attribute with that number, from 0, for the features of which the filter is
/// true. An attribute of the type holds the value, and the filter suits the type.
#[derive(Debug, Drop)]
pub struct Change {
    pub attribute: u16,
    pub value: Value,
    pub filter: Filter,
}

/// A new value as it is written.
#[derive(Clone, Copy, Debug)]
pub enum Given<'a> {
    Constant(Constant<'a>),
    Geometry(Piece<'a>),
    Null,
}

/// The new value where it has no fault, and of which attribute.
#[derive(Debug, Drop)]
pub struct Assigned<'a> {
    pub attribute: u16,
    pub value: Value,
    pub faults: Faults<'a>,
}

fn given_at<'a>(tokens: &'a [Spaced<'a>]) -> Option<(Given<'a>, &'a [Spaced<'a>])>
    ensures { option_map (λ x. (given_seen x.0, seen_all x.1.now)) result
        ≡ spec.new_at (seen_all tokens.now) }
{
    if let Some((constant, rest)) = constant_at(tokens) {
        return Some((Given::Constant(constant), rest));
    }
    if let Some(rest) = after_keyword(Keyword::Null, tokens) {
        return Some((Given::Null, rest));
    }
    let (piece, rest) = piece_at(tokens)?;
    Some((Given::Geometry(piece), rest))
}

// A name, a new value, and what follows the WHERE behind them.
#[tactic(auto, unfolding(crate::specs::Change::assignment_tokens_at))]
fn assignment_at<'a>(tokens: &'a [Spaced<'a>]) -> Option<(&'a str, Given<'a>, &'a [Spaced<'a>])>
    ensures value { option_map (λ x. (x.0.now, (given_seen x.1, seen_all x.2.now))) result
        ≡ spec.assignment_tokens_at (seen_all tokens.now) }
{
    let (name, rest) = name_at(tokens)?;
    let (given, rest) = given_at(rest)?;
    let rest = after_keyword(Keyword::Where, rest)?;
    Some((name, given, rest))
}

// In an attribute of texts the empty text is null. A number is one of the kind's width.
fn value_of(kind: Kind, literal: Literal) -> Option<Value>
    ensures { result ≡ spec.value_of kind literal }
{
    match literal {
        Literal::Text(text) => {
            if text.as_bytes().is_empty() {
                if matches!(kind, Kind::Text) {
                    return Some(Value::Null);
                }
                return None;
            }
            Some(Value::Text(text))
        }
        Literal::Number(number) => number_value(kind, number),
        Literal::Truth(truth) => Some(Value::Boolean(truth)),
        Literal::Date(at) => Some(Value::Date(at)),
    }
}

fn number_value(kind: Kind, number: i64) -> Option<Value>
    ensures { result ≡ spec.number_value kind number }
{
    if !matches!(kind, Kind::Integer) {
        return Some(Value::Long(number));
    }
    match i32::try_from(number) {
        Ok(number) => Some(Value::Integer(number)),
        Err(_) => None,
    }
}

fn constant_value(
    alloc: Global,
    kind: Kind,
    constant: &Constant<'_>,
) -> Result<Option<Value>, NoMemory>
    ensures { IfOk result (λ v. v ≡ spec.literal_value kind (constant_seen constant.now)) }
{
    match literal_of(alloc, matches!(kind, Kind::Date), constant)? {
        None => Ok(None),
        Some(literal) => Ok(value_of(kind, literal)),
    }
}

// The value that is meant, if there is one.
fn given_value(alloc: Global, kind: Kind, given: &Given<'_>) -> Result<Option<Value>, Halt>
    ensures { Gives (λ v. v) (spec.new_value kind (given_seen given.now)) result }
{
    match given {
        Given::Null => Ok(Some(Value::Null)),
        Given::Constant(constant) => Ok(constant_value(alloc, kind, constant)?),
        Given::Geometry(piece) => match geometry_of(alloc, piece)? {
            None => Ok(None),
            Some(geometry) => Ok(Some(Value::Geo(geometry))),
        },
    }
}

// A syntax fault where the tokens of a geometry spell none.
fn spell(alloc: Global, given: &Given<'_>) -> Result<(), Halt>
    ensures { Passes (spec.is_new_spelled (given_seen given.now)) result }
{
    match given {
        Given::Geometry(piece) => {
            let _geometry = geometry_of(alloc, piece)?;
            Ok(())
        }
        _ => Ok(()),
    }
}

fn faulty<'a>(unknown: Option<&'a str>, bad: Option<&'a str>) -> Assigned<'a>
    ensures { assigned_seen result
        ≡ spec.faulty (option_map (λ n. n.now) unknown.entry)
        (option_map (λ n. n.now) bad.entry) }
{
    Assigned {
        attribute: 0,
        value: Value::Null,
        faults: Faults { unknown, bad },
    }
}

fn kept<'a>(kind: Kind, name: &'a str, attribute: u16, value: Option<Value>) -> Assigned<'a>
    ensures { assigned_seen result ≡ spec.kept_value kind name.now attribute value }
{
    match value {
        None => faulty(None, Some(name)),
        Some(value) => {
            if value_fits(kind, &value) {
                return Assigned {
                    attribute,
                    value,
                    faults: faultless(),
                };
            }
            faulty(None, Some(name))
        }
    }
}

fn kind_of(of: &FeatureType, at: u16) -> Option<Kind>
    ensures { result ≡ kind_at of.now at }
{
    let attribute = of.attributes().as_slice().get(at as usize)?;
    Some(attribute.kind)
}

fn assign<'a>(
    alloc: Global,
    of: &FeatureType,
    name: &'a str,
    given: &Given<'a>,
) -> Result<Assigned<'a>, Halt>
    ensures { Gives assigned_seen
        (spec.assignment_of of.now name.now (given_seen given.now)) result }
{
    match place_of(of, name) {
        None => {
            spell(alloc, given)?;
            Ok(faulty(Some(name), None))
        }
        Some((at, kind)) => {
            let value = given_value(alloc, kind, given)?;
            Ok(kept(kind, name, at, value))
        }
    }
}

// The number and the kind of the attribute with that name.
fn place_of(of: &FeatureType, name: &str) -> Option<(u16, Kind)>
    ensures { result ≡ spec.place_and_kind of.now name.now }
{
    let at = of.attribute_named(name.as_bytes())?;
    let kind = kind_of(of, at)?;
    Some((at, kind))
}

/// The change that all tokens spell, where it has no fault, and its faults.
pub fn parse_change<'a>(
    alloc: Global,
    of: &FeatureType,
    tokens: &'a [Spaced<'a>],
) -> Result<(Change, Faults<'a>), Halt>
    ensures value { Gives (λ x. change_seen x.0 x.1)
        (spec.change_document of.now (seen_all tokens.now)) result }
    ensures found { IfOk result
        (λ x. SpellsChangeJudged of.now (seen_all tokens.now) (change_seen x.0 x.1)) }
    ensures none { IfErr result (λ e. e ≡ Halt.Syntax
        → (c : JudgedChange) → SpellsChangeJudged of.now (seen_all tokens.now) c → ⊥) }
{
    let (name, given, rest) = assignment_at(tokens).ok_or(Halt::Syntax)?;
    let assigned = assign(alloc, of, name, &given)?;
    let found = parse(alloc, of, rest)?;
    let faults = first_faults(assigned.faults, found.faults);
    let change = Change {
        attribute: assigned.attribute,
        value: assigned.value,
        filter: found.filter,
    };
    Ok((change, faults))
}
