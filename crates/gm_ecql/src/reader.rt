// Texts to filters and to changes, with their faults in order.
ghost use Rattle.std.specs.Prelude.{map, option_map, IfOk, Err};
ghost use Rattle.gm_filter.specs.Tree.{tree};
ghost use Rattle.gm_filter.specs.Suitability.{Suits};
ghost use Rattle.gm_ecql.specs.declared.fault.FilterFault.TheVariants as spec_fault;
ghost use Rattle.gm_ecql.specs.Fault.{IsAnswer, IsChangeAnswer};
ghost use Rattle.gm_ecql.specs.Outcome as spec;
ghost use Rattle.gm_ecql.specs.Outcome.{Answers, MayHold, filter_outcome, change_outcome, meant};
ghost use Rattle.gm_ecql.specs.Token.{seen_spaced};

use crate::change::parse_change;
use crate::judging::{Faults, Found};
use crate::limits::{are_numbers_apart, are_within};
use crate::parser::parse;
use crate::scanner::tokens;
use crate::token::Spaced;
use crate::{Change, FilterFault};
use gm_base::Text;
use gm_filter::Filter;
use gm_types::FeatureType;
use std::alloc::Global;

/// The filter that the text spells, which suits the type.
pub fn read(alloc: Global, of: &FeatureType, text: &[u8]) -> Result<Filter, FilterFault>
    ensures outcome { Answers (λ f. tree f) (filter_outcome of.now text.now) result }
    ensures answer { IsAnswer of.now text.now result }
    ensures suits { IfOk result (λ f. Suits of.now (tree f)) }
{
    let tokens = sound_tokens(alloc, text)?;
    let Found { filter, faults } = parse(alloc, of, &tokens)?;
    judge_faults(alloc, faults)?;
    Ok(filter)
}

/// The change that the text spells.
pub fn read_change(alloc: Global, of: &FeatureType, text: &[u8]) -> Result<Change, FilterFault>
    ensures outcome { Answers meant (change_outcome of.now text.now) result }
    ensures answer { IsChangeAnswer of.now text.now result }
    ensures holds { IfOk result (λ c. MayHold of.now c.attribute c.value) }
    ensures suits { IfOk result (λ c. Suits of.now (tree c.filter)) }
{
    let tokens = sound_tokens(alloc, text)?;
    let (change, faults) = parse_change(alloc, of, &tokens)?;
    judge_faults(alloc, faults)?;
    Ok(change)
}

// The tokens of a text that keeps the limits.
fn sound_tokens<'a>(alloc: Global, text: &'a [u8]) -> Result<Vec<Spaced<'a>>, FilterFault>
    ensures { Answers (λ v. map seen_spaced v.items)
        (spec.kept_tokens (spec.tokens_of text.now)) result }
{
    let tokens = tokens(alloc, text)?;
    if !are_within(&tokens) {
        return Err(FilterFault::Limit);
    }
    if !are_numbers_apart(&tokens) {
        return Err(FilterFault::Syntax);
    }
    Ok(tokens)
}

// An unknown name comes before a literal.
fn judge_faults(alloc: Global, faults: Faults<'_>) -> Result<(), FilterFault>
    ensures { Answers (λ u. u) (spec.if_faultless (option_map (λ n. n.now) faults.entry.unknown)
        (option_map (λ n. n.now) faults.entry.bad) tt) result }
{
    if let Some(name) = faults.unknown {
        return unknown(alloc, name);
    }
    if let Some(name) = faults.bad {
        return literal(alloc, name);
    }
    Ok(())
}

fn unknown(alloc: Global, name: &str) -> Result<(), FilterFault>
    ensures { Answers (λ u. u) (Err (spec_fault.Unknown name.now)) result }
{
    match Text::from_str(alloc, name) {
        Ok(name) => Err(FilterFault::Unknown(name)),
        Err(_) => Err(FilterFault::NoMemory),
    }
}

fn literal(alloc: Global, name: &str) -> Result<(), FilterFault>
    ensures { Answers (λ u. u) (Err (spec_fault.Literal name.now)) result }
{
    match Text::from_str(alloc, name) {
        Ok(name) => Err(FilterFault::Literal(name)),
        Err(_) => Err(FilterFault::NoMemory),
    }
}
