// Tokens to a test.
ghost use Rattle.std.specs.Prelude.{◌≡◌, ◌<◌, length, map, option_map, IfOk};
ghost use Rattle.gm_ecql.specs.Token.{seen_all, undoubled};
ghost use Rattle.gm_ecql.specs.Test.{asked_seen, constant_seen, corners_seen, test_seen};
ghost use Rattle.gm_ecql.specs.Reader as spec;
ghost use Rattle.gm_ecql.specs.Halt.{Gives};

use crate::geometry::piece_at;
use crate::halt::Halt;
use crate::keyword::Keyword;
use crate::parts::{
    after_keyword, after_symbol, constant_at, instant_at, name_at, number_at, separator_at,
    symbol_at, text_at,
};
use crate::test::{Asked, Constant, Corners, Relation, Test, Timing};
use crate::token::{Spaced, Symbol};
use gm_filter::Op;
use std::alloc::Global;

/// The test at the front, and what follows it.
pub fn test_at<'a>(
    alloc: Global,
    tokens: &'a [Spaced<'a>],
) -> Result<(Test<'a>, &'a [Spaced<'a>]), Halt>
    ensures value { Gives (λ x. (test_seen x.0, seen_all x.1.now))
        (spec.test_at (seen_all tokens.now)) result }
    ensures shorter { IfOk result (λ x. length x.1.now < length tokens.now) }
{
    if let Some((name, rest)) = name_at(tokens) {
        let (asked, rest) = asked_at(alloc, rest)?;
        return Ok((Test::Named(name, asked), rest));
    }
    if let Some(rest) = after_keyword(Keyword::In, tokens) {
        let (texts, rest) = texts_at(alloc, rest)?;
        return Ok((Test::Ids(texts), rest));
    }
    lone_test_at(tokens).ok_or(Halt::Syntax)
}

// A test that begins with a keyword other than IN.
fn lone_test_at<'a>(tokens: &'a [Spaced<'a>]) -> Option<(Test<'a>, &'a [Spaced<'a>])>
    ensures { option_map (λ x. (test_seen x.0, seen_all x.1.now)) result
        ≡ spec.lone_test_at (seen_all tokens.now) }
{
    if let Some(rest) = after_keyword(Keyword::Include, tokens) {
        return Some((Test::Include, rest));
    }
    if let Some(rest) = after_keyword(Keyword::Exclude, tokens) {
        return Some((Test::Exclude, rest));
    }
    if let Some(rest) = after_keyword(Keyword::Bbox, tokens) {
        return bbox_at(rest);
    }
    let (relation, rest) = relation_at(tokens)?;
    related_at(relation, rest)
}

fn relation_at<'a>(tokens: &'a [Spaced<'a>]) -> Option<(Relation, &'a [Spaced<'a>])>
    ensures { option_map (λ x. (x.0, seen_all x.1.now)) result
        ≡ spec.relation_at (seen_all tokens.now) }
{
    if let Some(rest) = after_keyword(Keyword::Intersects, tokens) {
        return Some((Relation::Intersects, rest));
    }
    if let Some(rest) = after_keyword(Keyword::Disjoint, tokens) {
        return Some((Relation::Disjoint, rest));
    }
    let rest = after_keyword(Keyword::Within, tokens)?;
    Some((Relation::Within, rest))
}

// A number, and what follows the comma behind it.
fn number_then_comma<'a>(tokens: &'a [Spaced<'a>]) -> Option<(&'a str, &'a [Spaced<'a>])>
    ensures { option_map (λ x. (x.0.now, seen_all x.1.now)) result
        ≡ spec.number_then_comma (seen_all tokens.now) }
{
    let (number, rest) = number_at(tokens)?;
    let rest = after_symbol(Symbol::Comma, rest)?;
    Some((number, rest))
}

// A name behind an opening bracket, and what follows the comma behind it.
fn name_then_comma<'a>(tokens: &'a [Spaced<'a>]) -> Option<(&'a str, &'a [Spaced<'a>])>
    ensures { option_map (λ x. (x.0.now, seen_all x.1.now)) result
        ≡ spec.name_then_comma (seen_all tokens.now) }
{
    let rest = after_symbol(Symbol::Opening, tokens)?;
    let (name, rest) = name_at(rest)?;
    let rest = after_symbol(Symbol::Comma, rest)?;
    Some((name, rest))
}

fn corners_at<'a>(tokens: &'a [Spaced<'a>]) -> Option<(Corners<'a>, &'a [Spaced<'a>])>
    ensures { option_map (λ x. (corners_seen x.0, seen_all x.1.now)) result
        ≡ spec.corners_at (seen_all tokens.now) }
{
    let (low_x, rest) = number_then_comma(tokens)?;
    let (low_y, rest) = number_then_comma(rest)?;
    let (high_x, rest) = number_then_comma(rest)?;
    let (high_y, rest) = number_at(rest)?;
    let corners = Corners {
        low_x,
        low_y,
        high_x,
        high_y,
    };
    Some((corners, rest))
}

// A comma and a text, if they are there, and the closing bracket.
fn system_at<'a>(tokens: &'a [Spaced<'a>]) -> Option<(Option<&'a str>, &'a [Spaced<'a>])>
    ensures { option_map (λ x. (option_map (λ t. undoubled t.now) x.0, seen_all x.1.now)) result
        ≡ spec.system_at (seen_all tokens.now) }
{
    let (more, rest) = separator_at(tokens)?;
    if !more {
        return Some((None, rest));
    }
    let (text, rest) = text_at(rest)?;
    let rest = after_symbol(Symbol::Closing, rest)?;
    Some((Some(text), rest))
}

fn bbox_at<'a>(tokens: &'a [Spaced<'a>]) -> Option<(Test<'a>, &'a [Spaced<'a>])>
    ensures { option_map (λ x. (test_seen x.0, seen_all x.1.now)) result
        ≡ spec.bbox_at (seen_all tokens.now) }
{
    let (name, rest) = name_then_comma(tokens)?;
    let (corners, rest) = corners_at(rest)?;
    let (system, rest) = system_at(rest)?;
    Some((Test::Named(name, Asked::Bbox(corners, system)), rest))
}

fn related_at<'a>(
    relation: Relation,
    tokens: &'a [Spaced<'a>],
) -> Option<(Test<'a>, &'a [Spaced<'a>])>
    ensures { option_map (λ x. (test_seen x.0, seen_all x.1.now)) result
        ≡ spec.related_at relation (seen_all tokens.now) }
{
    let (name, rest) = name_then_comma(tokens)?;
    let (piece, rest) = piece_at(rest)?;
    let rest = after_symbol(Symbol::Closing, rest)?;
    Some((Test::Named(name, Asked::Related(relation, piece)), rest))
}

// Texts in brackets, with commas between them.
fn texts_at<'a>(
    alloc: Global,
    tokens: &'a [Spaced<'a>],
) -> Result<(Vec<&'a str>, &'a [Spaced<'a>]), Halt>
    ensures { Gives (λ x. (map (λ t. undoubled t.now) x.0.items, seen_all x.1.now))
        (spec.texts_at (seen_all tokens.now)) result }
{
    let mut rest = after_symbol(Symbol::Opening, tokens).ok_or(Halt::Syntax)?;
    let mut texts = Vec::new(alloc);
    'texts: loop {
        let (text, after) = text_at(rest).ok_or(Halt::Syntax)?;
        texts.push(text)?;
        let (more, later) = separator_at(after).ok_or(Halt::Syntax)?;
        if !more {
            return Ok((texts, later));
        }
        rest = later;
    }
}

// Literals in brackets, with commas between them.
fn constants_at<'a>(
    alloc: Global,
    tokens: &'a [Spaced<'a>],
) -> Result<(Vec<Constant<'a>>, &'a [Spaced<'a>]), Halt>
    ensures { Gives (λ x. (map constant_seen x.0.items, seen_all x.1.now))
        (spec.constants_at (seen_all tokens.now)) result }
{
    let mut rest = after_symbol(Symbol::Opening, tokens).ok_or(Halt::Syntax)?;
    let mut constants = Vec::new(alloc);
    'constants: loop {
        let (constant, after) = constant_at(rest).ok_or(Halt::Syntax)?;
        constants.push(constant)?;
        let (more, later) = separator_at(after).ok_or(Halt::Syntax)?;
        if !more {
            return Ok((constants, later));
        }
        rest = later;
    }
}

// What is asked behind a name.
fn asked_at<'a>(
    alloc: Global,
    tokens: &'a [Spaced<'a>],
) -> Result<(Asked<'a>, &'a [Spaced<'a>]), Halt>
    ensures { Gives (λ x. (asked_seen x.0, seen_all x.1.now))
        (spec.asked_at (seen_all tokens.now)) result }
{
    if let Some((op, rest)) = op_at(tokens) {
        return compared_at(op, rest).ok_or(Halt::Syntax);
    }
    if let Some(rest) = after_keyword(Keyword::Is, tokens) {
        return null_at(rest).ok_or(Halt::Syntax);
    }
    if let Some(rest) = after_keyword(Keyword::During, tokens) {
        return during_at(rest).ok_or(Halt::Syntax);
    }
    if let Some((timing, rest)) = timing_at(tokens) {
        return timed_at(timing, rest).ok_or(Halt::Syntax);
    }
    let (negated, rest) = not_at(tokens);
    negatable_at(alloc, negated, rest)
}

// Whether a NOT stands first, and what follows it.
fn not_at<'a>(tokens: &'a [Spaced<'a>]) -> (bool, &'a [Spaced<'a>])
    ensures { (result.0, seen_all result.1.now) ≡ spec.not_at (seen_all tokens.now) }
{
    match after_keyword(Keyword::Not, tokens) {
        Some(rest) => (true, rest),
        None => (false, tokens),
    }
}

// BETWEEN, LIKE or IN, before which a NOT may have stood.
fn negatable_at<'a>(
    alloc: Global,
    negated: bool,
    tokens: &'a [Spaced<'a>],
) -> Result<(Asked<'a>, &'a [Spaced<'a>]), Halt>
    ensures { Gives (λ x. (asked_seen x.0, seen_all x.1.now))
        (spec.negatable_at negated (seen_all tokens.now)) result }
{
    if let Some(rest) = after_keyword(Keyword::Between, tokens) {
        return between_at(negated, rest).ok_or(Halt::Syntax);
    }
    if let Some(rest) = after_keyword(Keyword::Like, tokens) {
        return like_at(negated, rest).ok_or(Halt::Syntax);
    }
    let rest = after_keyword(Keyword::In, tokens).ok_or(Halt::Syntax)?;
    let (constants, rest) = constants_at(alloc, rest)?;
    Ok((Asked::OneOf(negated, constants), rest))
}

fn op_of(symbol: Symbol) -> Option<Op>
    ensures { result ≡ spec.op_of symbol }
{
    match symbol {
        Symbol::Equal => Some(Op::Eq),
        Symbol::NotEqual => Some(Op::Ne),
        Symbol::Less => Some(Op::Lt),
        Symbol::AtMost => Some(Op::Le),
        Symbol::More => Some(Op::Gt),
        Symbol::AtLeast => Some(Op::Ge),
        Symbol::Opening | Symbol::Closing | Symbol::Comma | Symbol::Slash => None,
    }
}

fn op_at<'a>(tokens: &'a [Spaced<'a>]) -> Option<(Op, &'a [Spaced<'a>])>
    ensures { option_map (λ x. (x.0, seen_all x.1.now)) result ≡ spec.op_at (seen_all tokens.now) }
{
    let (symbol, rest) = symbol_at(tokens)?;
    let op = op_of(symbol)?;
    Some((op, rest))
}

fn compared_at<'a>(op: Op, tokens: &'a [Spaced<'a>]) -> Option<(Asked<'a>, &'a [Spaced<'a>])>
    ensures { option_map (λ x. (asked_seen x.0, seen_all x.1.now)) result
        ≡ spec.compared_at op (seen_all tokens.now) }
{
    let (constant, rest) = constant_at(tokens)?;
    Some((Asked::Compared(op, constant), rest))
}

fn between_at<'a>(negated: bool, tokens: &'a [Spaced<'a>]) -> Option<(Asked<'a>, &'a [Spaced<'a>])>
    ensures { option_map (λ x. (asked_seen x.0, seen_all x.1.now)) result
        ≡ spec.between_at negated (seen_all tokens.now) }
{
    let (low, rest) = constant_at(tokens)?;
    let rest = after_keyword(Keyword::And, rest)?;
    let (high, rest) = constant_at(rest)?;
    Some((Asked::Between(negated, low, high), rest))
}

fn like_at<'a>(negated: bool, tokens: &'a [Spaced<'a>]) -> Option<(Asked<'a>, &'a [Spaced<'a>])>
    ensures { option_map (λ x. (asked_seen x.0, seen_all x.1.now)) result
        ≡ spec.like_at negated (seen_all tokens.now) }
{
    let (pattern, rest) = text_at(tokens)?;
    Some((Asked::Like(negated, pattern), rest))
}

// `[NOT] NULL` behind IS.
fn null_at<'a>(tokens: &'a [Spaced<'a>]) -> Option<(Asked<'a>, &'a [Spaced<'a>])>
    ensures { option_map (λ x. (asked_seen x.0, seen_all x.1.now)) result
        ≡ spec.null_at (seen_all tokens.now) }
{
    let (negated, rest) = not_at(tokens);
    let rest = after_keyword(Keyword::Null, rest)?;
    Some((Asked::Null(negated), rest))
}

fn during_at<'a>(tokens: &'a [Spaced<'a>]) -> Option<(Asked<'a>, &'a [Spaced<'a>])>
    ensures { option_map (λ x. (asked_seen x.0, seen_all x.1.now)) result
        ≡ spec.during_at (seen_all tokens.now) }
{
    let (low, rest) = instant_at(tokens)?;
    let rest = after_symbol(Symbol::Slash, rest)?;
    let (high, rest) = instant_at(rest)?;
    Some((Asked::During(low, high), rest))
}

fn timing_at<'a>(tokens: &'a [Spaced<'a>]) -> Option<(Timing, &'a [Spaced<'a>])>
    ensures { option_map (λ x. (x.0, seen_all x.1.now)) result
        ≡ spec.timing_at (seen_all tokens.now) }
{
    if let Some(rest) = after_keyword(Keyword::Before, tokens) {
        return Some((Timing::Before, rest));
    }
    if let Some(rest) = after_keyword(Keyword::After, tokens) {
        return Some((Timing::After, rest));
    }
    let rest = after_keyword(Keyword::Tequals, tokens)?;
    Some((Timing::Tequals, rest))
}

fn timed_at<'a>(timing: Timing, tokens: &'a [Spaced<'a>]) -> Option<(Asked<'a>, &'a [Spaced<'a>])>
    ensures { option_map (λ x. (asked_seen x.0, seen_all x.1.now)) result
        ≡ spec.timed_at timing (seen_all tokens.now) }
{
    let (at, rest) = instant_at(tokens)?;
    Some((Asked::Timed(timing, at), rest))
}
