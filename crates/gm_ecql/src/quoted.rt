// Texts and names in quotes.
ghost use Rattle.std.specs.Prelude.{◌≡◌, option_map, ◌<◌, length, false, IfSome};
ghost use Rattle.gm_ecql.specs.Token.{seen};
ghost use Rattle.gm_ecql.specs.Scanner as spec;

use crate::bytes::name_count;
use crate::token::Token;

/// The name in front of its closing quote, and what follows that.
pub fn name_at(bytes: &[u8]) -> Option<(Token<'_>, &[u8])>
    ensures { option_map (λ x. (seen x.0, x.1.now)) result ≡ spec.name_at bytes.now }
{
    let (name, rest) = bytes.split_at(name_count(bytes));
    closed_name(name, rest)
}

fn closed_name<'a>(name: &'a [u8], rest: &'a [u8]) -> Option<(Token<'a>, &'a [u8])>
    ensures { option_map (λ x. (seen x.0, x.1.now)) result ≡ spec.closed_name name.now rest.now }
{
    if name.is_empty() {
        return None;
    }
    match rest {
        [] => None,
        [_, rest @ ..] => name_token(name, rest),
    }
}

/// The name, and what follows it.
pub fn name_token<'a>(name: &'a [u8], rest: &'a [u8]) -> Option<(Token<'a>, &'a [u8])>
    ensures { option_map (λ x. (seen x.0, x.1.now)) result
        ≡ spec.if_utf8 name.now (spec.a_name_then name.now rest.now) }
{
    match str::from_utf8(name) {
        Err(_) => None,
        Ok(name) => Some((Token::Name(name), rest)),
    }
}

/// The text in front of its closing quote, and what follows that.
pub fn text_at(bytes: &[u8]) -> Option<(Token<'_>, &[u8])>
    ensures { option_map (λ x. (seen x.0, x.1.now)) result ≡ spec.text_at bytes.now }
{
    let end = text_end(bytes)?;
    text_token(&bytes[..end], &bytes[end + 1..])
}

fn text_token<'a>(text: &'a [u8], rest: &'a [u8]) -> Option<(Token<'a>, &'a [u8])>
    ensures { option_map (λ x. (seen x.0, x.1.now)) result
        ≡ spec.if_utf8 text.now (spec.a_text_then text.now rest.now) }
{
    match str::from_utf8(text) {
        Err(_) => None,
        Ok(text) => Some((Token::Text(text), rest)),
    }
}

// The place of the closing quote.
#[tactic(auto, using(crate::proofs::Scanned::quote_turns))]
fn text_end(bytes: &[u8]) -> Option<usize>
    ensures value { result ≡ spec.text_end 0 false bytes.now }
    ensures within { IfSome result (λ n. n < length bytes.now) }
{
    let mut pending = false;
    'bytes: for (index, byte) in bytes.iter().enumerate() {
        if *byte == b'\'' {
            pending = !pending;
        } else if pending {
            return Some(index - 1);
        }
    }
    if pending {
        return Some(bytes.len() - 1);
    }
    None
}
