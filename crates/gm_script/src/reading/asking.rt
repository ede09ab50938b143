// `.. NAME [index=I] [target=T] FILTER`
ghost use Rattle.std.specs.Prelude.{◌≡◌, option_map, IfOk, IfSome};
ghost use Rattle.gm_ecql.specs.Outcome.{filter_outcome};
ghost use Rattle.gm_filter.specs.Suitability as filters;
ghost use Rattle.gm_filter.specs.Tree.{tree};
ghost use Rattle.gm_script.specs.Ask as spec;
ghost use Rattle.gm_script.specs.Order.{asked_by};
ghost use Rattle.gm_script.specs.Reading.{ReadsAsk, ask_named, ask_of, ask_read, ask_with};
ghost use Rattle.gm_script.specs.Suits.{IsHint, IsQuestion, IsQuestionAt};

use super::type_for;
use crate::fault::{filter_fault, refused};
use crate::numbers::target_of;
use crate::words::split_option;
use crate::{Ask, LineFault};
use gm_base::Code;
use gm_filter::Filter;
use gm_types::{FeatureType, IndexKind, TypeList};
use std::alloc::Global;

/// The question that stands behind its first word.
#[tactic(auto, unfolding(crate::specs::Reading::ask_of))]
pub(crate) fn read_ask(
    alloc: Global,
    types: &TypeList,
    name: &[u8],
    rest: &[u8],
) -> Result<Ask, LineFault>
    ensures reads { ReadsAsk (ask_of types.now name.now rest.now) result }
    ensures suits { IfOk result (λ a. IsQuestion types.now (asked_by a)) }
{
    let (hint, behind) = split_option(b"index=", rest);
    let (target, text) = split_option(b"target=", behind);
    match target_of(target) {
        Some(target) => read_named(alloc, types, name, hint, target, text),
        None => Err(refused(Code::E04)),
    }
}

// A question of the type with this name.
fn read_named(
    alloc: Global,
    types: &TypeList,
    name: &[u8],
    hint: Option<&[u8]>,
    target: u64,
    text: &[u8],
) -> Result<Ask, LineFault>
    ensures reads { ReadsAsk (ask_named types.now name.now
        (option_map (λ name. name.now) hint.entry) target text.now) result }
    ensures suits { IfOk result (λ a. IsQuestion types.now (asked_by a)) }
{
    let (type_number, of) = type_for(types, name, text)?;
    read_question(alloc, type_number, of, hint, target, text)
}

// A question of the type with this number. The filter is read before the hint.
fn read_question(
    alloc: Global,
    type_number: u16,
    of: &FeatureType,
    hint: Option<&[u8]>,
    target: u64,
    text: &[u8],
) -> Result<Ask, LineFault>
    ensures reads { ReadsAsk (ask_read type_number target
        (spec.hinted of.now (option_map (λ name. name.now) hint.entry))
        (filter_outcome of.now text.now)) result }
    ensures suits { IsQuestionAt type_number of.now result }
{
    match gm_ecql::read(alloc, of, text) {
        Ok(filter) => with_hint(type_number, of, hint, target, filter),
        Err(why) => Err(filter_fault(why)),
    }
}

fn with_hint(
    type_number: u16,
    of: &FeatureType,
    hint: Option<&[u8]>,
    target: u64,
    filter: Filter,
) -> Result<Ask, LineFault>
    requires { filters.Suits of.now (tree filter) }
    ensures reads { ReadsAsk (ask_with type_number target (tree filter)
        (spec.hinted of.now (option_map (λ name. name.now) hint.entry))) result }
    ensures suits { IsQuestionAt type_number of.now result }
{
    match hinted(of, hint) {
        Some(hint) => Ok(Ask {
            number: type_number,
            hint,
            target,
            filter,
        }),
        None => Err(refused(Code::E17)),
    }
}

// The enabled index that is hinted at, if a hint is given.
fn hinted(of: &FeatureType, hint: Option<&[u8]>) -> Option<Option<IndexKind>>
    ensures value { result ≡ spec.hinted of.now (option_map (λ name. name.now) hint.entry) }
    ensures enabled { IfSome result (IsHint of.now) }
{
    match hint {
        None => Some(None),
        Some(name) => match of.index_named(name) {
            Some(kind) => Some(Some(kind)),
            None => None,
        },
    }
}
