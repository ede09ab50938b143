// Instants and numbers.
ghost use Rattle.std.specs.Prelude.{◌≡◌, option_map, ◌≤◌, length, take, true};
ghost use Rattle.std.specs.List.{list_all};
ghost use Rattle.std.specs.Char as char;
ghost use Rattle.gm_calendar.specs.Spelling as calendar;
ghost use Rattle.gm_ecql.specs.Token.{seen};
ghost use Rattle.gm_ecql.specs.Scanner as spec;

use crate::bytes::{instant_count, is_number_tail, is_sign};
use crate::token::Token;
use gm_calendar::read_instant;
use gm_geom::{NumberFault, read_fixed};

/// The instant or the number at the front, and what follows it.
pub fn numeric_at(bytes: &[u8]) -> Option<(Token<'_>, &[u8])>
    ensures { option_map (λ x. (seen x.0, x.1.now)) result ≡ spec.numeric_at bytes.now }
{
    if has_date(bytes) {
        instant_at(bytes)
    } else {
        number_at(bytes)
    }
}

fn are_digits(bytes: &[u8]) -> bool
    ensures { result ≡ list_all char.is_ascii_digit bytes.now }
{
    bytes.iter().all(|byte| byte.is_ascii_digit())
}

fn has_date(bytes: &[u8]) -> bool
    ensures { result ≡ calendar.has_date_form (take 10 bytes.now) }
{
    if bytes.len() < 10 {
        return false;
    }
    has_date_form(&bytes[..10])
}

fn has_date_form(bytes: &[u8]) -> bool
    ensures { result ≡ calendar.has_date_form bytes.now }
{
    if bytes.len() != 10 || bytes[4] != b'-' || bytes[7] != b'-' {
        return false;
    }
    let year = are_digits(&bytes[0..4]);
    let month = are_digits(&bytes[5..7]);
    let day = are_digits(&bytes[8..10]);
    year && month && day
}

fn instant_at(bytes: &[u8]) -> Option<(Token<'_>, &[u8])>
    ensures { option_map (λ x. (seen x.0, x.1.now)) result ≡ spec.instant_at bytes.now }
{
    let (front, rest) = bytes.split_at(instant_count(bytes));
    let at = read_instant(front)?;
    Some((Token::Instant(at), rest))
}

fn number_at(bytes: &[u8]) -> Option<(Token<'_>, &[u8])>
    ensures { option_map (λ x. (seen x.0, x.1.now)) result ≡ spec.number_at bytes.now }
{
    let (front, rest) = bytes.split_at(number_end(bytes));
    match read_fixed(front) {
        Err(NumberFault::Form) => None,
        Ok(_) => number_token(front, rest),
        Err(NumberFault::Big) => number_token(front, rest),
    }
}

fn number_token<'a>(number: &'a [u8], rest: &'a [u8]) -> Option<(Token<'a>, &'a [u8])>
    ensures { option_map (λ x. (seen x.0, x.1.now)) result
        ≡ spec.if_utf8 number.now (spec.a_number_then number.now rest.now) }
{
    match str::from_utf8(number) {
        Err(_) => None,
        Ok(number) => Some((Token::Number(number), rest)),
    }
}

fn goes_on(sign: bool, byte: u8) -> bool
    ensures { result ≡ spec.goes_on sign byte }
{
    is_number_tail(byte) || (sign && is_sign(byte))
}

fn is_e(byte: u8) -> bool
    ensures { result ≡ spec.is_e byte }
{
    byte == b'e' || byte == b'E'
}

#[tactic(auto, using(crate::proofs::Scanned::number_turns))]
fn number_end(bytes: &[u8]) -> usize
    ensures value { result ≡ spec.number_end 0 true bytes.now }
    ensures within { result ≤ length bytes.now }
{
    let mut sign = true;
    'bytes: for (index, byte) in bytes.iter().enumerate() {
        if !goes_on(sign, *byte) {
            return index;
        }
        sign = is_e(*byte);
    }
    bytes.len()
}
