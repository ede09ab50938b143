// Text to tokens.
ghost use Rattle.std.specs.Prelude.{◌≡◌, List, Bool, ◌∷◌, [], IfOk, IfErr};
ghost use Rattle.std.specs.Prelude.{map, option_map, MatchOption};
ghost use Rattle.gm_ecql.specs.Token.{Seen, Spells, SpellsTokens, seen, seen_spaced};
ghost use Rattle.gm_ecql.specs.Scanner as spec;
ghost use Rattle.gm_ecql.specs.Halt.{Gives};
ghost use Rattle.gm_ecql.specs.Outcome.{tokens_of};

use crate::bytes::{blank_count, is_number_start, is_word_start, word_count};
use crate::halt::Halt;
use crate::keyword::keyword_of;
use crate::numeric::numeric_at;
use crate::quoted::{name_at, name_token, text_at};
use crate::symbols::symbol_at;
use crate::token::{Spaced, Token};
use std::alloc::Global;

/// The tokens that the text spells, which lie in it. No blank stands before the first.
pub fn tokens<'a>(alloc: Global, text: &'a [u8]) -> Result<Vec<Spaced<'a>>, Halt>
    ensures value { Gives (λ v. map seen_spaced v.items) (tokens_of text.now) result }
    ensures found { IfOk result (λ v. SpellsTokens text.now (map seen_spaced v.items)) }
    ensures none { IfErr result (λ e. e ≡ Halt.Syntax
        → (ts : List (Bool × Seen)) → SpellsTokens text.now ts → ⊥) }
{
    if blank_count(text) > 0 {
        return Err(Halt::Syntax);
    }
    tokens_from(alloc, text)
}

// Blanks before the first are free.
fn tokens_from<'a>(alloc: Global, text: &'a [u8]) -> Result<Vec<Spaced<'a>>, Halt>
    ensures found { IfOk result (λ v. Spells text.now (map seen_spaced v.items)) }
    ensures none { IfErr result (λ e. e ≡ Halt.Syntax
        → (ts : List (Bool × Seen)) → Spells text.now ts → ⊥) }
{
    let mut rest = text;
    let mut found = Vec::new(alloc);
    'tokens: while !rest.is_empty() {
        let count = blank_count(rest);
        let spaced = count > 0;
        let (_, front) = rest.split_at(count);
        let Some((token, after)) = token_at(front) else {
            return Err(Halt::Syntax);
        };
        if let Err(_) = found.push(Spaced { spaced, token }) {
            return Err(Halt::NoMemory);
        }
        rest = after;
    }
    Ok(found)
}

// The token at the front, and what follows it.
#[tactic(auto, unfolding(crate::specs::Scanner::token_at))]
fn token_at(bytes: &[u8]) -> Option<(Token<'_>, &[u8])>
    ensures { option_map (λ x. (seen x.0, x.1.now)) result ≡ spec.token_at bytes.now }
{
    let (first, rest) = split_byte(bytes)?;
    if is_word_start(first) {
        return word_at(bytes);
    }
    if first == b'"' {
        return name_at(rest);
    }
    if first == b'\'' {
        return text_at(rest);
    }
    if is_number_start(first) {
        return numeric_at(bytes);
    }
    symbol_at(first, rest)
}

fn word_at(bytes: &[u8]) -> Option<(Token<'_>, &[u8])>
    ensures { option_map (λ x. (seen x.0, x.1.now)) result ≡ spec.word_at bytes.now }
{
    let (word, rest) = bytes.split_at(word_count(bytes));
    match keyword_of(word) {
        Some(keyword) => Some((Token::Keyword(keyword), rest)),
        None => name_token(word, rest),
    }
}

fn split_byte(bytes: &[u8]) -> Option<(u8, &[u8])>
    ensures { MatchOption result (bytes.now ≡ []) (λ x. bytes.now ≡ x.0 ∷ x.1.now) }
{
    match bytes {
        [first, rest @ ..] => Some((*first, rest)),
        [] => None,
    }
}
