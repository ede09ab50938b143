// What may stand at the front of tokens, and what follows it.
ghost use Rattle.std.specs.Prelude.{◌≡◌, ◌∷◌, [], ◌<◌, length, IfSome, MatchOption, option_map};
ghost use Rattle.gm_ecql.specs.Token.{seen, seen_all, undoubled};
ghost use Rattle.gm_ecql.specs.Test.{constant_seen};
ghost use Rattle.gm_ecql.specs.Reader as spec;

use crate::keyword::Keyword;
use crate::test::Constant;
use crate::token::{Spaced, Symbol, Token};
use gm_calendar::Instant;

/// The first token, and what follows it.
pub fn split<'a>(tokens: &'a [Spaced<'a>]) -> Option<(&'a Token<'a>, &'a [Spaced<'a>])>
    ensures { MatchOption result (tokens.now ≡ [])
        (λ x. seen_all tokens.now ≡ seen x.0.now ∷ seen_all x.1.now) }
{
    match tokens {
        [first, rest @ ..] => Some((&first.token, rest)),
        [] => None,
    }
}

/// What follows the keyword, where it stands first.
pub fn after_keyword<'a>(keyword: Keyword, tokens: &'a [Spaced<'a>]) -> Option<&'a [Spaced<'a>]>
    ensures value { option_map (λ r. seen_all r.now) result
        ≡ spec.after_keyword keyword (seen_all tokens.now) }
    ensures shorter { IfSome result (λ r. length r.now < length tokens.now) }
{
    match split(tokens) {
        Some((Token::Keyword(found), rest)) => {
            if *found == keyword {
                return Some(rest);
            }
            None
        }
        _ => None,
    }
}

/// What follows the symbol, where it stands first.
pub fn after_symbol<'a>(symbol: Symbol, tokens: &'a [Spaced<'a>]) -> Option<&'a [Spaced<'a>]>
    ensures value { option_map (λ r. seen_all r.now) result
        ≡ spec.after_symbol symbol (seen_all tokens.now) }
    ensures shorter { IfSome result (λ r. length r.now < length tokens.now) }
{
    match split(tokens) {
        Some((Token::Symbol(found), rest)) => {
            if *found == symbol {
                return Some(rest);
            }
            None
        }
        _ => None,
    }
}

/// The symbol at the front, and what follows it.
pub fn symbol_at<'a>(tokens: &'a [Spaced<'a>]) -> Option<(Symbol, &'a [Spaced<'a>])>
    ensures { option_map (λ x. (x.0, seen_all x.1.now)) result
        ≡ spec.symbol_at (seen_all tokens.now) }
{
    match split(tokens) {
        Some((Token::Symbol(symbol), rest)) => Some((*symbol, rest)),
        _ => None,
    }
}

/// The name at the front, without its quotes, and what follows it.
pub fn name_at<'a>(tokens: &'a [Spaced<'a>]) -> Option<(&'a str, &'a [Spaced<'a>])>
    ensures { option_map (λ x. (x.0.now, seen_all x.1.now)) result
        ≡ spec.name_at (seen_all tokens.now) }
{
    match split(tokens) {
        Some((Token::Name(name), rest)) => Some((*name, rest)),
        _ => None,
    }
}

/// The number at the front, as it is spelled, and what follows it.
pub fn number_at<'a>(tokens: &'a [Spaced<'a>]) -> Option<(&'a str, &'a [Spaced<'a>])>
    ensures { option_map (λ x. (x.0.now, seen_all x.1.now)) result
        ≡ spec.number_at (seen_all tokens.now) }
{
    match split(tokens) {
        Some((Token::Number(number), rest)) => Some((*number, rest)),
        _ => None,
    }
}

/// The instant at the front, and what follows it.
pub fn instant_at<'a>(tokens: &'a [Spaced<'a>]) -> Option<(&'a Instant, &'a [Spaced<'a>])>
    ensures { option_map (λ x. (x.0.now, seen_all x.1.now)) result
        ≡ spec.instant_at (seen_all tokens.now) }
{
    match split(tokens) {
        Some((Token::Instant(at), rest)) => Some((at, rest)),
        _ => None,
    }
}

/// The text at the front, with the quotes inside it twice, and what follows it.
pub fn text_at<'a>(tokens: &'a [Spaced<'a>]) -> Option<(&'a str, &'a [Spaced<'a>])>
    ensures { option_map (λ x. (undoubled x.0.now, seen_all x.1.now)) result
        ≡ spec.text_at (seen_all tokens.now) }
{
    match split(tokens) {
        Some((Token::Text(text), rest)) => Some((*text, rest)),
        _ => None,
    }
}

fn truth_at<'a>(tokens: &'a [Spaced<'a>]) -> Option<(bool, &'a [Spaced<'a>])>
    ensures { option_map (λ x. (x.0, seen_all x.1.now)) result
        ≡ spec.truth_at (seen_all tokens.now) }
{
    if let Some(rest) = after_keyword(Keyword::True, tokens) {
        return Some((true, rest));
    }
    let rest = after_keyword(Keyword::False, tokens)?;
    Some((false, rest))
}

/// The literal at the front, and what follows it.
pub fn constant_at<'a>(tokens: &'a [Spaced<'a>]) -> Option<(Constant<'a>, &'a [Spaced<'a>])>
    ensures { option_map (λ x. (constant_seen x.0, seen_all x.1.now)) result
        ≡ spec.constant_at (seen_all tokens.now) }
{
    if let Some((text, rest)) = text_at(tokens) {
        return Some((Constant::Text(text), rest));
    }
    if let Some((number, rest)) = number_at(tokens) {
        return Some((Constant::Number(number), rest));
    }
    if let Some((at, rest)) = instant_at(tokens) {
        return Some((Constant::Instant(at), rest));
    }
    let (truth, rest) = truth_at(tokens)?;
    Some((Constant::Truth(truth), rest))
}

/// True where a comma stands first, false where a closing bracket does, and what follows it.
pub fn separator_at<'a>(tokens: &'a [Spaced<'a>]) -> Option<(bool, &'a [Spaced<'a>])>
    ensures { option_map (λ x. (x.0, seen_all x.1.now)) result
        ≡ spec.separator_at (seen_all tokens.now) }
{
    if let Some(rest) = after_symbol(Symbol::Comma, tokens) {
        return Some((true, rest));
    }
    let rest = after_symbol(Symbol::Closing, tokens)?;
    Some((false, rest))
}
