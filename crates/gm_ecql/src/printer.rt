// Filters to texts.
ghost use Rattle.std.specs.Prelude.{◌≡◌, ◌++◌, ◌∷◌, ℕ, List, map, true, option_map};
ghost use Rattle.std.specs.Prelude.{slice_get, encode_utf8_all, IfOk, OnOk};
ghost use Rattle.std.specs.String.{string_bytes};
ghost use Rattle.std.specs.Fmt.{signed_decimal};
ghost use Rattle.gm_filter.specs.Tree.{tree, trees_of};
ghost use Rattle.gm_filter.specs.Tree.{compare, between, like, one_of, is_null};
ghost use Rattle.gm_types.specs.Specification.{names_of};
ghost use Rattle.gm_ecql.specs.Printer as spec;
ghost use Rattle.gm_ecql.specs.Token.{doubled};

use crate::keyword::keyword_of;
use gm_base::{NoMemory, Text};
use gm_calendar::{Instant, append_instant};
use gm_filter::{Filter, Literal, Op};
use gm_geom::{Box2, Geometry, Point, append_fixed};
use gm_types::FeatureType;
use std::alloc::Global;
use std::fmt::Write;

/// The text of a filter.
pub fn print(alloc: Global, of: &FeatureType, filter: &Filter) -> Result<Text, NoMemory>
    ensures text { IfOk result (λ text. text ≡ spec.printed of.now (tree filter.now)) }
{
    let mut out = String::new(alloc);
    match filter {
        Filter::And(members) => append_members(&mut out, of, " AND ", members)?,
        Filter::Or(members) => append_members(&mut out, of, " OR ", members)?,
        _ => append_inner(&mut out, of, filter)?,
    }
    Ok(Text::from_string(out))
}

// A filter inside another.
#[cycle(printer)]
fn append_inner(out: &mut String, of: &FeatureType, filter: &Filter) -> Result<(), NoMemory>
    ensures { OnOk result (string_bytes out.new
        ≡ string_bytes out.old ++ spec.inner of.now (tree filter.now)) }
{
    match filter {
        Filter::Not(negated) => {
            out.push_str("NOT ")?;
            append_inner(out, of, negated)
        }
        Filter::And(members) => {
            out.push_str("(")?;
            append_members(out, of, " AND ", members)?;
            out.push_str(")")?;
            Ok(())
        }
        Filter::Or(members) => {
            out.push_str("(")?;
            append_members(out, of, " OR ", members)?;
            out.push_str(")")?;
            Ok(())
        }
        _ => append_test(out, of, filter),
    }
}

#[cycle(printer)]
fn append_members(
    out: &mut String,
    of: &FeatureType,
    separator: &str,
    members: &[Filter],
) -> Result<(), NoMemory>
    ensures { OnOk result (string_bytes out.new ≡ string_bytes out.old
        ++ spec.listed of.now true separator.now (trees_of (map tree members.now))) }
{
    let mut first = true;
    'members: for member in members {
        if !first {
            out.push_str(separator)?;
        }
        first = false;
        append_inner(out, of, member)?;
    }
    Ok(())
}

// A filter without members. Of one with members nothing.
fn append_test(out: &mut String, of: &FeatureType, filter: &Filter) -> Result<(), NoMemory>
    ensures { OnOk result (string_bytes out.new
        ≡ string_bytes out.old ++ spec.test_text of.now (tree filter.now)) }
{
    match filter {
        Filter::Include => out.push_str("INCLUDE")?,
        Filter::Exclude => out.push_str("EXCLUDE")?,
        Filter::Ids(texts) => append_ids(out, texts.as_slice())?,
        Filter::Compare(at, op, literal) => append_compared(out, of, *at, *op, literal)?,
        Filter::Between(at, low, high) => append_between(out, of, *at, low, high)?,
        Filter::Like(at, pattern) => append_like(out, of, *at, pattern)?,
        Filter::OneOf(at, literals) => append_one_of(out, of, *at, literals.as_slice())?,
        Filter::IsNull(at) => append_null(out, of, *at)?,
        Filter::Bbox(at, area) => append_box(out, of, *at, area)?,
        Filter::Intersects(at, geometry) => {
            append_related(out, of, "INTERSECTS(", *at, geometry)?;
        }
        Filter::Disjoint(at, geometry) => {
            append_related(out, of, "DISJOINT(", *at, geometry)?;
        }
        Filter::Within(at, geometry) => {
            append_related(out, of, "WITHIN(", *at, geometry)?;
        }
        Filter::During(at, low, high) => append_during(out, of, *at, *low, *high)?,
        Filter::Before(at, end) => append_timed(out, of, *at, " BEFORE ", *end)?,
        Filter::After(at, start) => append_timed(out, of, *at, " AFTER ", *start)?,
        Filter::Tequals(at, instant) => append_timed(out, of, *at, " TEQUALS ", *instant)?,
        Filter::Not(_) | Filter::And(_) | Filter::Or(_) => {}
    }
    Ok(())
}

fn append_compared(
    out: &mut String,
    of: &FeatureType,
    at: u16,
    op: Op,
    literal: &Literal,
) -> Result<(), NoMemory>
    ensures { OnOk result (string_bytes out.new
        ≡ string_bytes out.old ++ spec.test_text of.now (compare at op literal.now)) }
{
    append_name(out, of, at)?;
    out.push_str(op_text(op))?;
    append_literal(out, literal)
}

fn append_between(
    out: &mut String,
    of: &FeatureType,
    at: u16,
    low: &Literal,
    high: &Literal,
) -> Result<(), NoMemory>
    ensures { OnOk result (string_bytes out.new
        ≡ string_bytes out.old ++ spec.test_text of.now (between at low.now high.now)) }
{
    append_name(out, of, at)?;
    out.push_str(" BETWEEN ")?;
    append_literal(out, low)?;
    out.push_str(" AND ")?;
    append_literal(out, high)
}

fn append_like(out: &mut String, of: &FeatureType, at: u16, pattern: &Text) -> Result<(), NoMemory>
    ensures { OnOk result (string_bytes out.new
        ≡ string_bytes out.old ++ spec.test_text of.now (like at pattern.now)) }
{
    append_name(out, of, at)?;
    out.push_str(" LIKE ")?;
    append_text(out, pattern)
}

fn append_one_of(
    out: &mut String,
    of: &FeatureType,
    at: u16,
    literals: &[Literal],
) -> Result<(), NoMemory>
    ensures { OnOk result (string_bytes out.new
        ≡ string_bytes out.old ++ spec.test_text of.now (one_of at literals.now)) }
{
    append_name(out, of, at)?;
    out.push_str(" IN (")?;
    append_literals(out, literals)?;
    out.push_str(")")?;
    Ok(())
}

fn append_null(out: &mut String, of: &FeatureType, at: u16) -> Result<(), NoMemory>
    ensures { OnOk result (string_bytes out.new
        ≡ string_bytes out.old ++ spec.test_text of.now (is_null at)) }
{
    append_name(out, of, at)?;
    out.push_str(" IS NULL")?;
    Ok(())
}

fn append_name(out: &mut String, of: &FeatureType, at: u16) -> Result<(), NoMemory>
    ensures { OnOk result (string_bytes out.new
        ≡ string_bytes out.old ++ spec.name_text (spec.name_at of.now at)) }
{
    match name_of(of, at) {
        None => append_word(out, ""),
        Some(name) => append_word(out, name),
    }
}

fn name_of<'a>(of: &'a FeatureType, at: u16) -> Option<&'a str>
    ensures { option_map (λ name. name.now) result ≡ slice_get (names_of of.now) at }
{
    let attribute = of.attributes().as_slice().get(at as usize)?;
    Some(attribute.name.as_str())
}

// A name that is a keyword stands in quotes.
fn append_word(out: &mut String, name: &str) -> Result<(), NoMemory>
    ensures { OnOk result (string_bytes out.new ≡ string_bytes out.old ++ spec.name_text name.now) }
{
    if keyword_of(name.as_bytes()).is_none() {
        out.push_str(name)?;
        return Ok(());
    }
    out.push_str("\"")?;
    out.push_str(name)?;
    out.push_str("\"")?;
    Ok(())
}

fn op_text(op: Op) -> &'static str
    ensures { result.now ≡ spec.op_text op }
{
    match op {
        Op::Eq => " = ",
        Op::Ne => " <> ",
        Op::Lt => " < ",
        Op::Le => " <= ",
        Op::Gt => " > ",
        Op::Ge => " >= ",
    }
}

fn append_text(out: &mut String, text: &Text) -> Result<(), NoMemory>
    ensures { OnOk result (string_bytes out.new
        ≡ string_bytes out.old ++ spec.quoted_text text.now) }
{
    out.push_str("'")?;
    append_doubled(out, text.as_str())?;
    out.push_str("'")?;
    Ok(())
}

fn append_doubled(out: &mut String, raw: &str) -> Result<(), NoMemory>
    ensures { OnOk result (string_bytes out.new ≡ string_bytes out.old ++ doubled raw.now) }
{
    'characters: for character in raw.chars() {
        append_character(out, character)?;
    }
    Ok(())
}

// A quote is written twice.
fn append_character(out: &mut String, character: char) -> Result<(), NoMemory>
    ensures { OnOk result ((more : List ℕ)
        → string_bytes out.old ++ encode_utf8_all (doubled (character ∷ more))
        ≡ string_bytes out.new ++ encode_utf8_all (doubled more)) }
{
    if character == '\'' {
        out.push(character)?;
    }
    out.push(character)?;
    Ok(())
}

fn append_number(out: &mut String, number: i64) -> Result<(), NoMemory>
    ensures { OnOk result (string_bytes out.new ≡ string_bytes out.old ++ signed_decimal number) }
{
    write!(out, "{number}")?;
    Ok(())
}

fn append_literal(out: &mut String, literal: &Literal) -> Result<(), NoMemory>
    ensures { OnOk result (string_bytes out.new
        ≡ string_bytes out.old ++ spec.literal_text literal.now) }
{
    match literal {
        Literal::Number(number) => append_number(out, *number),
        Literal::Text(text) => append_text(out, text),
        Literal::Date(at) => append_instant(out, *at),
        Literal::Truth(truth) => append_truth(out, *truth),
    }
}

fn append_truth(out: &mut String, truth: bool) -> Result<(), NoMemory>
    ensures { OnOk result (string_bytes out.new ≡ string_bytes out.old ++ spec.truth_text truth) }
{
    if truth {
        out.push_str("TRUE")?;
        return Ok(());
    }
    out.push_str("FALSE")?;
    Ok(())
}

fn append_literals(out: &mut String, literals: &[Literal]) -> Result<(), NoMemory>
    ensures { OnOk result (string_bytes out.new
        ≡ string_bytes out.old ++ spec.commas spec.literal_text true literals.now) }
{
    let mut first = true;
    'literals: for literal in literals {
        append_comma(out, first)?;
        first = false;
        append_literal(out, literal)?;
    }
    Ok(())
}

fn append_comma(out: &mut String, first: bool) -> Result<(), NoMemory>
    ensures { OnOk result (string_bytes out.new ≡ string_bytes out.old ++ spec.comma_text first) }
{
    if !first {
        out.push_str(", ")?;
    }
    Ok(())
}

fn append_ids(out: &mut String, texts: &[Text]) -> Result<(), NoMemory>
    ensures { OnOk result (string_bytes out.new ≡ string_bytes out.old ++ spec.ids_text texts.now) }
{
    out.push_str("IN (")?;
    let mut first = true;
    'texts: for text in texts {
        append_comma(out, first)?;
        first = false;
        append_text(out, text)?;
    }
    out.push_str(")")?;
    Ok(())
}

fn append_box(out: &mut String, of: &FeatureType, at: u16, area: &Box2) -> Result<(), NoMemory>
    ensures { OnOk result (string_bytes out.new ≡ string_bytes out.old
        ++ spec.box_text (spec.name_at of.now at) area.now) }
{
    out.push_str("BBOX(")?;
    append_name(out, of, at)?;
    append_corner(out, &area.low)?;
    append_corner(out, &area.high)?;
    out.push_str(")")?;
    Ok(())
}

fn append_corner(out: &mut String, corner: &Point) -> Result<(), NoMemory>
    ensures { OnOk result (string_bytes out.new
        ≡ string_bytes out.old ++ spec.corner_text corner.now) }
{
    append_coordinate(out, corner.x)?;
    append_coordinate(out, corner.y)
}

// A comma stands before it.
fn append_coordinate(out: &mut String, value: i32) -> Result<(), NoMemory>
    ensures { OnOk result (string_bytes out.new
        ≡ string_bytes out.old ++ spec.coordinate_text value) }
{
    out.push_str(", ")?;
    append_fixed(out, value)?;
    Ok(())
}

fn append_related(
    out: &mut String,
    of: &FeatureType,
    word: &str,
    at: u16,
    geometry: &Geometry,
) -> Result<(), NoMemory>
    ensures { OnOk result (string_bytes out.new ≡ string_bytes out.old
        ++ spec.related_text word.now (spec.name_at of.now at) geometry.now) }
{
    out.push_str(word)?;
    append_name(out, of, at)?;
    out.push_str(", ")?;
    gm_wkt::append(out, geometry)?;
    out.push_str(")")?;
    Ok(())
}

fn append_timed(
    out: &mut String,
    of: &FeatureType,
    at: u16,
    word: &str,
    instant: Instant,
) -> Result<(), NoMemory>
    ensures { OnOk result (string_bytes out.new ≡ string_bytes out.old
        ++ spec.timed_text (spec.name_at of.now at) word.now instant) }
{
    append_name(out, of, at)?;
    out.push_str(word)?;
    append_instant(out, instant)
}

fn append_during(
    out: &mut String,
    of: &FeatureType,
    at: u16,
    low: Instant,
    high: Instant,
) -> Result<(), NoMemory>
    ensures { OnOk result (string_bytes out.new ≡ string_bytes out.old
        ++ spec.during_text (spec.name_at of.now at) low high) }
{
    append_name(out, of, at)?;
    out.push_str(" DURING ")?;
    append_instant(out, low)?;
    out.push_str("/")?;
    append_instant(out, high)?;
    Ok(())
}
