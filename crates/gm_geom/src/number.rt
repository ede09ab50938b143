// Fixed-point numbers: decimal text to whole units of 10^-7.
ghost use Rattle.std.specs.Prelude.{◌≡◌, ℕ, IfSome, ◌<◌, ◌≤◌, ◌+◌, ◌-◌, ◌*◌, ◌/◌, ◌^◌, length};
ghost use Rattle.std.specs.List.{list_all, prefix_len};
ghost use Rattle.std.specs.Char.{is_ascii_digit};
ghost use Rattle.std.specs.Str.Parse as parse;
ghost use Rattle.std.specs.Str.Parse.{digits_value_after, without_leading_sign};
ghost use Rattle.gm_geom.specs.Number as spec;
ghost use Rattle.gm_geom.specs.Number.{digits_at, behind_digits, fraction_at, behind_fraction};
ghost use Rattle.gm_geom.specs.Number.{AreDigits, Fits, IsCapped, nearest};

use thiserror::Error;

/// The greatest number of bytes of a number.
pub const NUMBER_LIMIT: usize = 38;

/// The places of a unit: a unit is 10^-7.
const PLACES: u32 = 7;

/// No i32 is further from 0.
const FURTHEST: u128 = 2_147_483_648;

/// Why a text became no fixed number.
#[derive(Clone, Copy, Debug, PartialEq, Eq, Error)]
pub enum NumberFault {
    #[error("not a number")]
    Form,

    #[error("a number outside the range")]
    Big,
}

// The power of ten of a number.
#[derive(Clone, Copy)]
struct Exponent {
    negative: bool,
    value: u32,
}

// A number as it is written: a whole number of which the last places stand behind the point, times
// a power of ten.
#[derive(Clone, Copy)]
struct Number {
    negative: bool,
    value: u128,
    places: u32,
    exponent: Exponent,
}

/// The number that the text spells, in units of 10^-7, rounded to the nearest, a half away from 0.
/// It takes no memory.
pub fn read_fixed(text: &[u8]) -> Result<i32, NumberFault>
    ensures { result ≡ spec.fixed_of text.now }
{
    match number_of(text) {
        None => Err(NumberFault::Form),
        Some(number) => rounded(number),
    }
}

fn rounded(number: Number) -> Result<i32, NumberFault>
    requires { Fits number }
    ensures { result ≡ spec.rounded number }
{
    let Exponent { negative, value } = number.exponent;
    let up = if negative { PLACES } else { PLACES + value };
    let down = if negative {
        number.places + value
    } else {
        number.places
    };
    match scaled(number.value, up, down) {
        None => Err(NumberFault::Big),
        Some(magnitude) => signed(number.negative, magnitude),
    }
}

fn number_of(text: &[u8]) -> Option<Number>
    ensures value { result ≡ spec.number_of text.now }
    ensures fits { IfSome result Fits }
{
    if text.len() > NUMBER_LIMIT {
        return None;
    }
    unsigned_number(starts_with_minus(text), without_sign(text))
}

fn starts_with_minus(text: &[u8]) -> bool
    ensures { result ≡ parse.starts_with_minus text.now }
{
    matches!(text, [b'-', ..])
}

fn without_sign(text: &[u8]) -> &[u8]
    ensures value { result.now ≡ without_leading_sign text.now }
    ensures shorter { length result.now ≤ length text.now }
{
    match text {
        [b'-' | b'+', rest @ ..] => rest,
        _ => text,
    }
}

fn unsigned_number(negative: bool, bytes: &[u8]) -> Option<Number>
    requires { length bytes.now ≤ 38 }
    ensures value { result ≡ spec.unsigned_number negative bytes.now }
    ensures fits { IfSome result Fits }
{
    let (whole, behind) = split_digits(bytes);
    let (fraction, end) = split_fraction(behind);
    if whole.len() + fraction.len() == 0 {
        return None;
    }
    match exponent_of(end) {
        None => None,
        Some(exponent) => Some(Number {
            negative,
            value: extended(extended(0, whole), fraction),
            places: fraction.len() as u32,
            exponent,
        }),
    }
}

// The digits at the front, and what follows them.
fn split_digits(bytes: &[u8]) -> (&[u8], &[u8])
    ensures front { result.0.now ≡ digits_at bytes.now }
    ensures back { result.1.now ≡ behind_digits bytes.now }
    ensures digits { AreDigits result.0.now }
    ensures whole { length result.0.now + length result.1.now ≡ length bytes.now }
{
    bytes.split_at(digit_count(bytes))
}

fn digit_count(bytes: &[u8]) -> usize
    ensures value { result ≡ prefix_len is_ascii_digit bytes.now }
    ensures within { result ≤ length bytes.now }
{
    'bytes: for (count, byte) in bytes.iter().enumerate() {
        if !byte.is_ascii_digit() {
            return count;
        }
    }
    bytes.len()
}

// The digits behind a point, where one stands first, and what follows them.
fn split_fraction(bytes: &[u8]) -> (&[u8], &[u8])
    ensures front { result.0.now ≡ fraction_at bytes.now }
    ensures back { result.1.now ≡ behind_fraction bytes.now }
    ensures digits { AreDigits result.0.now }
    ensures within { length result.0.now + length result.1.now ≤ length bytes.now }
{
    match bytes {
        [b'.', rest @ ..] => split_digits(rest),
        _ => (&[], bytes),
    }
}

fn exponent_of(bytes: &[u8]) -> Option<Exponent>
    ensures value { result ≡ spec.exponent_of bytes.now }
    ensures fits { IfSome result (λ e. e.value < 1000) }
{
    match bytes {
        [] => Some(Exponent {
            negative: false,
            value: 0,
        }),
        [b'e' | b'E', rest @ ..] => marked_exponent(rest),
        _ => None,
    }
}

// What follows the e.
fn marked_exponent(bytes: &[u8]) -> Option<Exponent>
    ensures value { result ≡ spec.marked_exponent bytes.now }
    ensures fits { IfSome result (λ e. e.value < 1000) }
{
    let digits = without_sign(bytes);
    if !is_exponent(digits) {
        return None;
    }
    Some(Exponent {
        negative: starts_with_minus(bytes),
        value: extended(0, digits) as u32,
    })
}

fn is_exponent(digits: &[u8]) -> bool
    ensures { result ≡ spec.is_exponent digits.now }
{
    let some = !digits.is_empty();
    let few = digits.len() <= 3;
    some && few && are_digits(digits)
}

fn are_digits(bytes: &[u8]) -> bool
    ensures { result ≡ list_all is_ascii_digit bytes.now }
{
    bytes.iter().all(|byte| byte.is_ascii_digit())
}

// The number whose digits are those of a number and further ones.
fn extended(mut number: u128, digits: &[u8]) -> u128
    requires digits { AreDigits digits.now }
    requires few { length digits.now ≤ 38 }
    requires room { number < 10 ^ (38 - length digits.now) }
    ensures value { result ≡ digits_value_after 10 number digits.now }
    ensures bound { (k : ℕ) → number < 10 ^ k → result < 10 ^ (k + length digits.now) }
{
    'digits: for digit in digits {
        number = number * 10 + u128::from(*digit - b'0');
    }
    number
}

// The number times 10^up over 10^down, to the nearest, unless it is over 2^31.
fn scaled(number: u128, up: u32, down: u32) -> Option<u32>
    requires { number < 10 ^ 38 }
    ensures { IsCapped result (nearest (number * 10 ^ up) (10 ^ down)) }
{
    if down <= up {
        raised(number, up - down)
    } else {
        capped(lowered(number, down - up))
    }
}

// The number times 10^places, unless it is over 2^31.
fn raised(mut number: u128, mut places: u32) -> Option<u32>
    ensures { IsCapped result (number * 10 ^ places) }
{
    'places: while places > 0 && number > 0 {
        if number > FURTHEST {
            return None;
        }
        number *= 10;
        places -= 1;
    }
    capped(number)
}

fn capped(number: u128) -> Option<u32>
    ensures { IsCapped result number }
{
    if number > FURTHEST {
        return None;
    }
    Some(number as u32)
}

// The number over 10^places, to the nearest.
fn lowered(mut number: u128, mut places: u32) -> u128
    requires some { 0 < places }
    requires small { number < 10 ^ 38 }
    ensures { result ≡ nearest number (10 ^ places) }
{
    'places: while places > 1 && number > 0 {
        number /= 10;
        places -= 1;
    }
    (number + 5) / 10
}

fn signed(negative: bool, magnitude: u32) -> Result<i32, NumberFault>
    requires { magnitude ≤ 2 ^ 31 }
    ensures { result ≡ spec.in_range (spec.signed negative magnitude) }
{
    let magnitude = i64::from(magnitude);
    let value = if negative { -magnitude } else { magnitude };
    if value > i64::from(i32::MAX) {
        return Err(NumberFault::Big);
    }
    Ok(value as i32)
}
