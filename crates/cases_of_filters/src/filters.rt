// Cases of the meaning of filters.
use crate::bounds;
use crate::held::{Held, filter};
use crate::words::{Halt, push, split, text, told};
use gm_ecql::print;
use gm_feature::{Feature, fits};
use gm_filter::{Filter, holds, like, suits};
use gm_types::FeatureType;
use std::alloc::Global;

/// What a case asks of texts, or of the held type, the held feature and a filter in ECQL.
pub fn answer(alloc: Global, held: &Held, word: &str, rest: &str) -> Result<String, Halt> {
    match word {
        "like" => like_text(alloc, rest),
        "like_many" => like_many(alloc, rest),
        _ => of_held(alloc, held, word, rest),
    }
}

fn of_held(alloc: Global, held: &Held, word: &str, rest: &str) -> Result<String, Halt> {
    let of = held.of()?;
    match word {
        "holds" => holds_of(alloc, of, held.feature()?, &filter(alloc, of, rest)?),
        "ranges" => bounds::ranges_of(alloc, of, rest),
        "hint" => bounds::hinted(alloc, of, rest),
        "print" => printed(alloc, of, &filter(alloc, of, rest)?),
        _ => bounds::answer(alloc, of, word, &filter(alloc, of, rest)?),
    }
}

fn holds_of(
    alloc: Global,
    of: &FeatureType,
    feature: &Feature,
    filter: &Filter,
) -> Result<String, Halt> {
    if suits(filter, of) && fits(of, feature) {
        told(alloc, holds(filter, feature))
    } else {
        Err(Halt::Form)
    }
}

// The canonical text.
fn printed(alloc: Global, of: &FeatureType, filter: &Filter) -> Result<String, Halt> {
    text(alloc, print(alloc, of, filter)?.as_str())
}

// Whether the text behind the bar is like the pattern before it.
fn like_text(alloc: Global, rest: &str) -> Result<String, Halt> {
    let (pattern, text) = split(rest, '|');
    told_like(alloc, pattern, text)
}

fn told_like(alloc: Global, pattern: &str, text: &str) -> Result<String, Halt> {
    told(alloc, like(pattern.as_bytes(), text.as_bytes()))
}

// The same of a pattern that is written so often, with an end, and of a text that is.
fn like_many(alloc: Global, rest: &str) -> Result<String, Halt> {
    let (pattern, text) = split(rest, '|');
    let pattern = written(alloc, pattern)?;
    let text = written(alloc, text)?;
    told_like(alloc, pattern.as_str(), text.as_str())
}

// A count, what is written so often, and an end.
fn written(alloc: Global, words: &str) -> Result<String, Halt> {
    let (count, rest) = split(words, ' ');
    let (part, end) = split(rest, ' ');
    let Ok(count) = count.parse::<u32>() else {
        return Err(Halt::Form);
    };
    let mut text = String::new(alloc);
    for _ in 0..count {
        push(&mut text, part)?;
    }
    push(&mut text, end)?;
    Ok(text)
}
