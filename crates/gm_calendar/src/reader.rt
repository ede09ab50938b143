// Instants read from text.
ghost use Rattle.std.specs.Prelude.{◌≡◌, ◌^◌, ◌<◌, ◌≤◌, length, pos, IfSome};
ghost use Rattle.std.specs.Char.{is_ascii_digit};
ghost use Rattle.std.specs.List.{prefix_len};
ghost use Rattle.jiff.specs.Words.{IsWithin};
ghost use Rattle.gm_calendar.specs.Spelling.{number_of, date_at, date_of, clock_of, second_of};
ghost use Rattle.gm_calendar.specs.Spelling.{digit_at, fraction_of, zone_of, behind_seconds};
ghost use Rattle.gm_calendar.specs.Spelling.{behind_minutes, behind_date, instant_of};

use crate::Instant;
use crate::calendar::DAY_MS;
use jiff::civil::Date;

/// The instant that a text spells: `YYYY-MM-DD`, then optionally `T` and `HH:MM`, `:SS`, `.` and
/// one to nine digits, and behind a time `Z` or a sign and `HH:MM`. None where the text is of
/// another form, where the calendar has no such date, or where the instant is outside the years
/// 0000 to 9999. The forms are those of ISO 8601's extended format, and with seconds and a zone
/// RFC 3339's date-times; what gives no zone is in UTC.
pub fn read_instant(text: &[u8]) -> Option<Instant>
    ensures { result ≡ instant_of text.now }
{
    if text.len() < 10 {
        return None;
    }
    let (front, back) = text.split_at(10);
    let date = read_date(front)?;
    let time = read_behind_date(back)?;
    Instant::of(date + time)
}

// The number that digits write.
fn read_number(digits: &[u8]) -> Option<u32>
    requires { length digits.now ≤ 4 }
    ensures value { result ≡ number_of digits.now }
    ensures bound { IfSome result (λ n. n < 10 ^ length digits.now) }
{
    let mut number = 0;
    for digit in digits {
        if !digit.is_ascii_digit() {
            return None;
        }
        number = number * 10 + u32::from(*digit - b'0');
    }
    Some(number)
}

// `YYYY-MM-DD`, as the first millisecond of that date.
fn read_date(text: &[u8]) -> Option<i64>
    ensures value { result ≡ date_of text.now }
    ensures bound { IfSome result (IsWithin 1_000_000_000_000_000) }
{
    if text.len() != 10 || text[4] != b'-' || text[7] != b'-' {
        return None;
    }
    let year = read_number(&text[0..4])?;
    let month = read_number(&text[5..7])?;
    let day = read_number(&text[8..10])?;
    date_ms(year, month, day)
}

fn date_ms(year: u32, month: u32, day: u32) -> Option<i64>
    requires year { year < 10_000 }
    requires month { month < 100 }
    requires day { day < 100 }
    ensures value { result ≡ date_at (Some year) (Some month) (Some day) }
    ensures bound { IfSome result (IsWithin 1_000_000_000_000_000) }
{
    let Ok(date) = Date::new(year as i16, month as i8, day as i8) else {
        return None;
    };
    Some(i64::from(date.to_plain().to_unix_epoch_day()) * DAY_MS as i64)
}

// `HH:MM`.
fn read_clock(text: &[u8]) -> Option<i64>
    ensures value { result ≡ clock_of text.now }
    ensures bound { IfSome result (IsWithin 100_000_000) }
{
    if text.len() != 5 || text[2] != b':' {
        return None;
    }
    let hours = read_number(&text[0..2])?;
    let minutes = read_number(&text[3..5])?;
    if hours >= 24 || minutes >= 60 {
        return None;
    }
    Some(i64::from(hours * 60 + minutes) * 60_000)
}

// `SS`.
fn read_seconds(text: &[u8]) -> Option<i64>
    ensures value { result ≡ second_of text.now }
    ensures bound { IfSome result (IsWithin 100_000_000) }
{
    if text.len() != 2 {
        return None;
    }
    let seconds = read_number(text)?;
    if seconds >= 60 {
        return None;
    }
    Some(i64::from(seconds) * 1_000)
}

fn read_zone(text: &[u8]) -> Option<i64>
    ensures value { result ≡ zone_of text.now }
    ensures bound { IfSome result (IsWithin 100_000_000) }
{
    let Some((mark, rest)) = text.split_first() else {
        return Some(0);
    };
    match *mark {
        b'Z' if rest.is_empty() => Some(0),
        b'+' => Some(-read_clock(rest)?),
        b'-' => read_clock(rest),
        _ => None,
    }
}

// The digits of a fraction.
fn read_fraction(digits: &[u8]) -> Option<i64>
    ensures value { result ≡ fraction_of digits.now }
    ensures bound { IfSome result (IsWithin 100_000_000) }
{
    if digits.is_empty() || digits.len() > 9 {
        return None;
    }
    let tenths = digit_or_zero(digits, 0);
    let hundredths = digit_or_zero(digits, 1);
    Some(tenths * 100 + hundredths * 10 + digit_or_zero(digits, 2))
}

// The digit in that place, and 0 where there is none.
fn digit_or_zero(digits: &[u8], digit_place: usize) -> i64
    ensures value { result ≡ pos (digit_at digits.now digit_place) }
    ensures bound { digit_at digits.now digit_place < 256 }
{
    match digits.get(digit_place) {
        Some(digit) => i64::from(digit.saturating_sub(b'0')),
        None => 0,
    }
}

// How many digits a text begins with.
fn count_digits(text: &[u8]) -> usize
    ensures value { result ≡ prefix_len is_ascii_digit text.now }
    ensures bound { result ≤ length text.now }
{
    let mut count = 0;
    for byte in text {
        if !byte.is_ascii_digit() {
            return count;
        }
        count += 1;
    }
    count
}

fn read_behind_seconds(text: &[u8]) -> Option<i64>
    ensures value { result ≡ behind_seconds text.now }
    ensures bound { IfSome result (IsWithin 200_000_000) }
{
    let Some((mark, rest)) = text.split_first() else {
        return Some(0);
    };
    if *mark != b'.' {
        return read_zone(text);
    }
    let (digits, zone) = rest.split_at(count_digits(rest));
    let fraction = read_fraction(digits)?;
    Some(fraction + read_zone(zone)?)
}

fn read_behind_minutes(text: &[u8]) -> Option<i64>
    ensures value { result ≡ behind_minutes text.now }
    ensures bound { IfSome result (IsWithin 300_000_000) }
{
    let Some((mark, rest)) = text.split_first() else {
        return Some(0);
    };
    if *mark != b':' {
        return read_zone(text);
    }
    if rest.len() < 2 {
        return None;
    }
    let (front, back) = rest.split_at(2);
    let seconds = read_seconds(front)?;
    Some(seconds + read_behind_seconds(back)?)
}

fn read_behind_date(text: &[u8]) -> Option<i64>
    ensures value { result ≡ behind_date text.now }
    ensures bound { IfSome result (IsWithin 400_000_000) }
{
    let Some((mark, rest)) = text.split_first() else {
        return Some(0);
    };
    if *mark != b'T' || rest.len() < 5 {
        return None;
    }
    let (front, back) = rest.split_at(5);
    let clock = read_clock(front)?;
    Some(clock + read_behind_minutes(back)?)
}
