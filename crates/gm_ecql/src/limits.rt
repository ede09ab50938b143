// What a list of tokens may have at most.
ghost use Rattle.std.specs.Prelude.{◌≡◌, ◌≤◌, ◌<◌, ◌^◌, length, map};
ghost use Rattle.gm_ecql.specs.Token.{seen, seen_spaced, seen_all};
ghost use Rattle.gm_ecql.specs.Limits as spec;

use crate::keyword::Keyword;
use crate::token::{Spaced, Symbol, Token};

/// The most tokens of a filter, or of a change.
pub const TOKEN_LIMIT: usize = 50_000;

/// How deep brackets may nest.
pub const DEPTH_LIMIT: usize = 100;

/// The most words AND, OR and NOT.
pub const JOIN_LIMIT: usize = 1_000;

/// Whether the tokens keep the three limits.
pub fn are_within(tokens: &[Spaced<'_>]) -> bool
    ensures { result ≡ spec.are_within (seen_all tokens.now) }
{
    let few = tokens.len() <= TOKEN_LIMIT;
    few && joins(tokens) <= JOIN_LIMIT && deepest(tokens) <= DEPTH_LIMIT
}

fn is_join(token: &Token<'_>) -> bool
    ensures { result ≡ spec.is_join (seen token.now) }
{
    matches!(
        token,
        Token::Keyword(Keyword::And) | Token::Keyword(Keyword::Or) | Token::Keyword(Keyword::Not)
    )
}

fn joins(tokens: &[Spaced<'_>]) -> usize
    ensures value { result ≡ spec.joins (seen_all tokens.now) }
    ensures few { result ≤ length tokens.now }
{
    let mut count = 0;
    'tokens: for spaced in tokens {
        if is_join(&spaced.token) {
            count += 1;
        }
    }
    count
}

/// How many brackets are open behind a token, from how many were before it. One that closes none
/// changes nothing.
pub fn depth_behind(depth: usize, token: &Token<'_>) -> usize
    requires { depth < 2 ^ 63 }
    ensures { result ≡ spec.depth_behind depth (seen token.now) }
{
    match token {
        Token::Symbol(Symbol::Opening) => depth + 1,
        Token::Symbol(Symbol::Closing) => depth.saturating_sub(1),
        _ => depth,
    }
}

// The most brackets that are open at once.
fn deepest(tokens: &[Spaced<'_>]) -> usize
    ensures { result ≡ spec.deepest 0 (seen_all tokens.now) }
{
    let mut depth = 0;
    let mut most = 0;
    'tokens: for spaced in tokens {
        depth = depth_behind(depth, &spaced.token);
        if most < depth {
            most = depth;
        }
    }
    most
}

/// Whether it is a number.
pub fn is_number(token: &Token<'_>) -> bool
    ensures { result ≡ spec.is_number (seen token.now) }
{
    matches!(token, Token::Number(_))
}

/// Whether a blank stands between any two numbers that follow one another.
pub fn are_numbers_apart(tokens: &[Spaced<'_>]) -> bool
    ensures { result ≡ spec.are_numbers_apart (map seen_spaced tokens.now) }
{
    let mut behind_number = false;
    'tokens: for spaced in tokens {
        let number = is_number(&spaced.token);
        if number && behind_number && !spaced.spaced {
            return false;
        }
        behind_number = number;
    }
    true
}
