// The settings that user data give.
ghost use Rattle.gm_base.specs.Ascii.{next_digit};
ghost use Rattle.std.specs.Prelude.{◌≡◌, min, find, fold, codes};
ghost use Rattle.std.specs.Char.{is_ascii_digit};
ghost use Rattle.std.specs.List.{list_all};
ghost use Rattle.std.specs.Option.{option_copied};
ghost use Rattle.gm_calendar.specs.declared.period.Period.TheVariants.{Week};
ghost use Rattle.gm_types.specs.Outline.{outlined};
ghost use Rattle.gm_types.specs.Settings.{IsSetting, capped, number_cap};
ghost use Rattle.gm_types.specs.Specification as spec;
ghost use Rattle.gm_types.specs.Words.{same_text};

use crate::Datum;
use crate::outline::Outline;
use crate::words::is_word;
use gm_calendar::Period;

fn datum_named<'a>(list: &'a [Datum], key: &[u8]) -> Option<&'a Datum>
    ensures { option_copied result ≡ find (λ datum. same_text datum.key key.now) list.now }
{
    list.iter().find(|datum| datum.key.as_bytes() == key)
}

/// The value that user data give to a key.
#[tactic(auto, unfolding(crate::specs::Datum::datum_value))]
pub(crate) fn setting<'a>(outline: &'a Outline, key: &[u8]) -> Option<&'a [u8]>
    ensures { option_copied result ≡ spec.setting_of (outlined outline.now) key.now }
{
    let datum = datum_named(outline.user_data.as_slice(), key)?;
    Some(datum.value.as_bytes())
}

fn begins_number(text: &[u8]) -> bool
    ensures { result ≡ spec.has_no_leading_zero text.now }
{
    match text.split_first() {
        Some((first, rest)) => *first != b'0' || rest.is_empty(),
        None => false,
    }
}

fn are_digits(text: &[u8]) -> bool
    ensures { result ≡ list_all is_ascii_digit text.now }
{
    text.iter().all(|byte| byte.is_ascii_digit())
}

// No number that counts is more: it stands for each that is.
const NUMBER_CAP: u32 = 1_000;

// The value of digits, or the cap where it is more.
fn digits_value(text: &[u8]) -> u32
    ensures { result ≡ min (fold next_digit 0 text.now) number_cap }
{
    let mut value = 0u32;
    for byte in text {
        let digit = u32::from(byte.saturating_sub(b'0'));
        value = (value * 10 + digit).min(NUMBER_CAP);
    }
    value
}

// The number that a text writes, or the cap where it is more.
fn number(text: &[u8]) -> Option<u32>
    ensures { result ≡ capped (spec.number_of text.now) }
{
    if begins_number(text) && are_digits(text) {
        return Some(digits_value(text));
    }
    None
}

fn shard_count(text: &[u8]) -> Option<u8>
    ensures { result ≡ spec.number_that spec.is_shard_count text.now }
{
    let count = number(text)?;
    if (1..=127).contains(&count) {
        return Some(count as u8);
    }
    None
}

fn levels(text: &[u8]) -> Option<u32>
    ensures { result ≡ spec.number_that spec.is_precision text.now }
{
    let levels = number(text)?;
    if matches!(levels, 4 | 8 | 12 | 16) {
        return Some(levels);
    }
    None
}

fn z2_width(text: &[u8]) -> Option<u32>
    ensures { result ≡ spec.number_that spec.is_z2_width text.now }
{
    let width = number(text)?;
    if matches!(width, 8 | 16 | 24 | 31) {
        return Some(width);
    }
    None
}

fn z3_width(text: &[u8]) -> Option<u32>
    ensures { result ≡ spec.number_that spec.is_z3_width text.now }
{
    let width = number(text)?;
    if matches!(width, 8 | 12 | 16 | 21) {
        return Some(width);
    }
    None
}

#[tactic(auto, unfolding(crate::specs::Specification::period_from))]
fn period_named(text: &[u8]) -> Option<Period>
    ensures { result ≡ spec.period_from text.now }
{
    if is_word(text, b"day") {
        return Some(Period::Day);
    }
    if is_word(text, b"week") {
        return Some(Period::Week);
    }
    if is_word(text, b"month") {
        return Some(Period::Month);
    }
    if is_word(text, b"year") {
        return Some(Period::Year);
    }
    None
}

/// The setting of a period: None where it has another value than those listed.
pub(crate) fn period(outline: &Outline) -> Option<Period>
    ensures { IsSetting spec.period_from
        (spec.setting_of (outlined outline.now) (codes "geomesa.z3.interval")) Week result }
{
    match setting(outline, b"geomesa.z3.interval") {
        None => Some(Period::Week),
        Some(text) => period_named(text),
    }
}

pub(crate) fn shards(outline: &Outline) -> Option<u8>
    ensures { IsSetting (spec.number_that spec.is_shard_count)
        (spec.setting_of (outlined outline.now) (codes "geomesa.z.splits")) 4 result }
{
    match setting(outline, b"geomesa.z.splits") {
        None => Some(4),
        Some(text) => shard_count(text),
    }
}

pub(crate) fn precision(outline: &Outline) -> Option<u32>
    ensures { IsSetting (spec.number_that spec.is_precision)
        (spec.setting_of (outlined outline.now) (codes "geomesa.xz.precision")) 12 result }
{
    match setting(outline, b"geomesa.xz.precision") {
        None => Some(12),
        Some(text) => levels(text),
    }
}

pub(crate) fn z2_bits(outline: &Outline) -> Option<u32>
    ensures { IsSetting (spec.number_that spec.is_z2_width)
        (spec.setting_of (outlined outline.now) (codes "gm.z2.bits")) 31 result }
{
    match setting(outline, b"gm.z2.bits") {
        None => Some(31),
        Some(text) => z2_width(text),
    }
}

pub(crate) fn z3_bits(outline: &Outline) -> Option<u32>
    ensures { IsSetting (spec.number_that spec.is_z3_width)
        (spec.setting_of (outlined outline.now) (codes "gm.z3.bits")) 21 result }
{
    match setting(outline, b"gm.z3.bits") {
        None => Some(21),
        Some(text) => z3_width(text),
    }
}
