// Instants printed as text.
ghost use Rattle.std.specs.Prelude.{◌≡◌, ◌+◌, ◌*◌, ◌<◌, [], ◌∷◌, ◌++◌};
ghost use Rattle.std.specs.Prelude.{take, ℤ, true, Some, IfOk, OnOk};
ghost use Rattle.std.specs.List.{list_all};
ghost use Rattle.std.specs.String.{string_bytes};
ghost use Rattle.gm_base.specs.Ascii.{digit_zero};
ghost use Rattle.gm_base.specs.Text.{BeginsWith};
ghost use Rattle.gm_calendar.specs.Calendar.{days_of_year, span_at};
ghost use Rattle.gm_calendar.specs.Instant.{day_ms, IsInstant};
ghost use Rattle.gm_calendar.specs.Parts.{SpellsInstant};
ghost use Rattle.gm_calendar.specs.Spelling.{two_digits, ms_since_0000, day_text, date_text};
ghost use Rattle.gm_calendar.specs.Spelling.{second_text, time_text, instant_text, instant_of};
ghost use Rattle.gm_calendar.specs.Spelling.{is_instant_byte, has_date_form};

use crate::Instant;
use crate::calendar::{DAY_MS, date_from_0000};
use crate::instant::FIRST_MS;
use gm_base::{NoMemory, Text};
use std::alloc::Global;

/// The instant as `YYYY-MM-DDTHH:MM:SS.mmmZ`.
pub fn print_instant(alloc: Global, at: Instant) -> Result<Text, NoMemory>
    ensures text { IfOk result (λ text. text ≡ instant_text at) }
    ensures reads_back { IfOk result (λ text. instant_of text ≡ Some at) }
{
    printed_instants_are_read();
    // For the proof alone: an instant is of the years 0000 to 9999.
    let _ms = at.ms();
    let mut text = String::with_capacity(alloc, 24)?;
    append_instant(&mut text, at)?;
    Ok(Text::from_string(text))
}

/// Appends the text that `print_instant` gives. Where memory runs out, part of it may be there.
pub fn append_instant(text: &mut String, at: Instant) -> Result<(), NoMemory>
    ensures text { OnOk result (string_bytes text.new ≡ string_bytes text.old ++ instant_text at) }
    ensures kept { BeginsWith (string_bytes text.new) (string_bytes text.old) }
{
    let since = ms_from_0000(at);
    append_day(text, since / DAY_MS)?;
    text.push('T')?;
    append_time(text, since % DAY_MS)?;
    text.push('Z')?;
    Ok(())
}

// The milliseconds since 0000-01-01T00:00:00Z.
fn ms_from_0000(at: Instant) -> u64
    ensures value { result ≡ ms_since_0000 at }
    ensures bound { result < 3_652_425 * day_ms }
    ensures range { IsInstant at }
{
    (at.ms() - FIRST_MS) as u64
}

// The date of a day that is counted from 0000-01-01.
fn append_day(text: &mut String, day: u64) -> Result<(), NoMemory>
    requires { day < 3_652_425 }
    ensures text { OnOk result (string_bytes text.new
        ≡ string_bytes text.old ++ day_text (span_at days_of_year 10_000 0 day)) }
    ensures kept { BeginsWith (string_bytes text.new) (string_bytes text.old) }
{
    let date = date_from_0000(day);
    append_date(
        text,
        date.year() as u64,
        date.month() as u64,
        date.day() as u64,
    )
}

#[tactic(auto, unfolding(crate::specs::Spelling::date_text))]
fn append_date(text: &mut String, year: u64, month: u64, day: u64) -> Result<(), NoMemory>
    requires year { year < 10_000 }
    requires month { month < 100 }
    requires day { day < 100 }
    ensures text { OnOk result (string_bytes text.new
        ≡ string_bytes text.old ++ date_text year month day) }
    ensures kept { BeginsWith (string_bytes text.new) (string_bytes text.old) }
{
    append_two(text, year / 100)?;
    append_two(text, year % 100)?;
    text.push('-')?;
    append_two(text, month)?;
    text.push('-')?;
    append_two(text, day)
}

#[tactic(auto, unfolding(crate::specs::Spelling::time_text))]
fn append_time(text: &mut String, ms: u64) -> Result<(), NoMemory>
    requires { ms < 86_400_000 }
    ensures text { OnOk result (string_bytes text.new
        ≡ string_bytes text.old ++ time_text ms) }
    ensures kept { BeginsWith (string_bytes text.new) (string_bytes text.old) }
{
    append_two(text, ms / 3_600_000)?;
    text.push(':')?;
    append_two(text, ms / 60_000 % 60)?;
    text.push(':')?;
    append_second(text, ms % 60_000)
}

#[tactic(auto, unfolding(crate::specs::Spelling::second_text))]
fn append_second(text: &mut String, ms: u64) -> Result<(), NoMemory>
    requires { ms < 60_000 }
    ensures text { OnOk result (string_bytes text.new
        ≡ string_bytes text.old ++ second_text ms) }
    ensures kept { BeginsWith (string_bytes text.new) (string_bytes text.old) }
{
    append_two(text, ms / 1_000)?;
    text.push('.')?;
    append_digit(text, ms % 1_000 / 100)?;
    append_two(text, ms % 100)
}

fn append_two(text: &mut String, number: u64) -> Result<(), NoMemory>
    requires { number < 100 }
    ensures text { OnOk result (string_bytes text.new
        ≡ string_bytes text.old ++ two_digits number) }
    ensures kept { BeginsWith (string_bytes text.new) (string_bytes text.old) }
{
    append_digit(text, number / 10)?;
    append_digit(text, number % 10)
}

fn append_digit(text: &mut String, digit: u64) -> Result<(), NoMemory>
    requires { digit < 10 }
    ensures text { OnOk result (string_bytes text.new
        ≡ string_bytes text.old ++ (digit_zero + digit) ∷ []) }
    ensures kept { BeginsWith (string_bytes text.new) (string_bytes text.old) }
{
    text.push(char::from(b'0' + digit as u8))?;
    Ok(())
}

/// The laws of printed instants, for proofs: each spells the instant, is read again as it, begins
/// with a date and has no byte but those of instants. It does nothing.
pub fn printed_instants_are_read()
    ensures spelled { (at : ℤ) → IsInstant at → SpellsInstant (instant_text at) at }
    ensures reads_back { (at : ℤ) → IsInstant at → instant_of (instant_text at) ≡ Some at }
    ensures date { (at : ℤ) → IsInstant at → has_date_form (take 10 (instant_text at)) ≡ true }
    ensures bytes { (at : ℤ) → IsInstant at → list_all is_instant_byte (instant_text at) ≡ true }
{}
