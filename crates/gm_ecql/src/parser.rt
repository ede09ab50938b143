// Tokens to a filter, by recursive descent. It is as deep as brackets nest and NOTs follow one
// another.
ghost use Rattle.std.specs.Prelude.{◌≡◌, ℕ, ◌≤◌, ◌<◌, length, IfErr, IfOk, Some, map};
ghost use Rattle.gm_filter.specs.Tree.{tree, all, any};
ghost use Rattle.gm_ecql.specs.Token.{seen_all};
ghost use Rattle.gm_ecql.specs.Grammar.{group, negated_of, SpellsJudged};
ghost use Rattle.gm_ecql.specs.Halt.{Gives};
ghost use Rattle.gm_ecql.specs.Judging.{Judged, found_seen};
ghost use Rattle.gm_ecql.specs.Parser as parsing;
ghost use Rattle.gm_ecql.specs.Parser.{factor_at, term_with, filter_with, document};

use crate::halt::Halt;
use crate::judging::{Found, first_faults, judge};
use crate::keyword::Keyword;
use crate::parts::{after_keyword, after_symbol};
use crate::test_reader::test_at;
use crate::token::{Spaced, Symbol};
use gm_filter::Filter;
use gm_types::FeatureType;
use std::alloc::Global;

// Quoted words stand for themselves, and braces for any number of repeats:
//
// filter = term { "OR" term }
// term   = factor { "AND" factor }
// factor = "NOT" factor | "(" filter ")" | test

// The members joined by AND, or the only one.
fn conjunction(mut members: Vec<Filter>) -> Filter
    requires { 1 ≤ length members.items }
    ensures { tree result ≡ group all (map tree members.items) }
{
    if members.len() > 1 {
        return Filter::And(members);
    }
    match members.pop() {
        Some(only) => only,
        None => unreachable!(),
    }
}

// The members joined by OR, or the only one.
fn disjunction(mut members: Vec<Filter>) -> Filter
    requires { 1 ≤ length members.items }
    ensures { tree result ≡ group any (map tree members.items) }
{
    if members.len() > 1 {
        return Filter::Or(members);
    }
    match members.pop() {
        Some(only) => only,
        None => unreachable!(),
    }
}

// The test at the front, as the type has it.
fn judged_at<'a>(
    alloc: Global,
    of: &FeatureType,
    tokens: &'a [Spaced<'a>],
) -> Result<(Found<'a>, &'a [Spaced<'a>]), Halt>
    ensures value { Gives (λ x. (found_seen x.0, seen_all x.1.now))
        (parsing.judged_at of.now (seen_all tokens.now)) result }
    ensures shorter { IfOk result (λ x. length x.1.now < length tokens.now) }
{
    let (test, rest) = test_at(alloc, tokens)?;
    let found = judge(alloc, of, &test)?;
    Ok((found, rest))
}

fn negated<'a>(alloc: Global, found: Found<'a>) -> Result<Found<'a>, Halt>
    ensures { Gives found_seen (Some (negated_of (found_seen found.entry))) result }
{
    let Found { filter, faults } = found;
    let filter = Filter::Not(Box::new(alloc, filter)?);
    Ok(Found { filter, faults })
}

// A filter up to its closing bracket.
#[cycle(parser)]
fn bracketed<'a>(
    alloc: Global,
    of: &FeatureType,
    tokens: &'a [Spaced<'a>],
) -> Result<(Found<'a>, &'a [Spaced<'a>]), Halt>
    ensures value { (n : ℕ) → length tokens.now ≤ n
        → Gives (λ x. (found_seen x.0, seen_all x.1.now))
        (parsing.closed (filter_with (factor_at of.now n) n (seen_all tokens.now))) result }
    ensures shorter { IfOk result (λ x. length x.1.now < length tokens.now) }
{
    let (inner, after) = filter(alloc, of, tokens)?;
    match after_symbol(Symbol::Closing, after) {
        Some(behind) => Ok((inner, behind)),
        None => Err(Halt::Syntax),
    }
}

#[cycle(parser)]
fn factor<'a>(
    alloc: Global,
    of: &FeatureType,
    tokens: &'a [Spaced<'a>],
) -> Result<(Found<'a>, &'a [Spaced<'a>]), Halt>
    ensures value { (n : ℕ) → length tokens.now ≤ n
        → Gives (λ x. (found_seen x.0, seen_all x.1.now))
        (factor_at of.now n (seen_all tokens.now)) result }
    ensures shorter { IfOk result (λ x. length x.1.now < length tokens.now) }
{
    if let Some(rest) = after_keyword(Keyword::Not, tokens) {
        let (inner, rest) = factor(alloc, of, rest)?;
        return Ok((negated(alloc, inner)?, rest));
    }
    if let Some(rest) = after_symbol(Symbol::Opening, tokens) {
        return bracketed(alloc, of, rest);
    }
    judged_at(alloc, of, tokens)
}

#[cycle(parser)]
fn term<'a>(
    alloc: Global,
    of: &FeatureType,
    tokens: &'a [Spaced<'a>],
) -> Result<(Found<'a>, &'a [Spaced<'a>]), Halt>
    ensures value { (n : ℕ) → length tokens.now ≤ n
        → Gives (λ x. (found_seen x.0, seen_all x.1.now))
        (term_with (factor_at of.now n) n (seen_all tokens.now)) result }
    ensures shorter { IfOk result (λ x. length x.1.now < length tokens.now) }
{
    let (first, mut rest) = factor(alloc, of, tokens)?;
    let mut faults = first.faults;
    let mut members = Vec::new(alloc);
    members.push(first.filter)?;
    'factors: while let Some(later) = after_keyword(Keyword::And, rest) {
        let (next, after) = factor(alloc, of, later)?;
        faults = first_faults(faults, next.faults);
        members.push(next.filter)?;
        rest = after;
    }
    let filter = conjunction(members);
    Ok((Found { filter, faults }, rest))
}

#[cycle(parser)]
fn filter<'a>(
    alloc: Global,
    of: &FeatureType,
    tokens: &'a [Spaced<'a>],
) -> Result<(Found<'a>, &'a [Spaced<'a>]), Halt>
    ensures value { (n : ℕ) → length tokens.now ≤ n
        → Gives (λ x. (found_seen x.0, seen_all x.1.now))
        (filter_with (factor_at of.now n) n (seen_all tokens.now)) result }
    ensures shorter { IfOk result (λ x. length x.1.now < length tokens.now) }
{
    let (first, mut rest) = term(alloc, of, tokens)?;
    let mut faults = first.faults;
    let mut members = Vec::new(alloc);
    members.push(first.filter)?;
    'terms: while let Some(later) = after_keyword(Keyword::Or, rest) {
        let (next, after) = term(alloc, of, later)?;
        faults = first_faults(faults, next.faults);
        members.push(next.filter)?;
        rest = after;
    }
    let filter = disjunction(members);
    Ok((Found { filter, faults }, rest))
}

/// The filter that all tokens spell.
pub fn parse<'a>(
    alloc: Global,
    of: &FeatureType,
    tokens: &'a [Spaced<'a>],
) -> Result<Found<'a>, Halt>
    ensures value { Gives found_seen (document of.now (seen_all tokens.now)) result }
    // What is read is spelled so.
    ensures found { IfOk result (λ f. SpellsJudged of.now (seen_all tokens.now) (found_seen f)) }
    // Where nothing is read, nothing is spelled.
    ensures none { IfErr result (λ e. e ≡ Halt.Syntax
        → (j : Judged) → SpellsJudged of.now (seen_all tokens.now) j → ⊥) }
{
    let (found, rest) = filter(alloc, of, tokens)?;
    if !rest.is_empty() {
        return Err(Halt::Syntax);
    }
    Ok(found)
}
