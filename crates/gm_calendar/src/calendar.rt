// Dates of days, asked of `jiff`.
ghost use Rattle.std.specs.Prelude.{◌≡◌, ◌<◌, ◌≤◌, pos, ◌+ℤ◌, ◌≤ℤ◌};
ghost use Rattle.jiff.specs.Words.{epoch_day, IsEpochDay};

use jiff::ToSpan;
use jiff::civil::{Date, date};

/// The milliseconds of a day.
pub(crate) const DAY_MS: u64 = 86_400_000;

// The days from 0000-01-01 to 1970-01-01.
const DAYS_BEFORE_1970: i64 = 719_528;

/// The date that many days after 1970-01-01.
pub(crate) fn date_of_day(day: i64) -> Date
    requires { IsEpochDay day }
    ensures { epoch_day result ≡ day }
{
    date(1970, 1, 1).checked_add(day.days()).unwrap()
}

/// The same, of a day that is not before 1970.
pub(crate) fn date_from_1970(day: u64) -> Date
    requires { day ≤ 2_932_896 }
    ensures day { epoch_day result ≡ pos day }
    ensures year { pos 1970 ≤ℤ result.year }
{
    date_of_day(day as i64)
}

/// The date of a day that is counted from 0000-01-01.
pub(crate) fn date_from_0000(day: u64) -> Date
    requires { day < 3_652_425 }
    ensures day { epoch_day result +ℤ pos 719_528 ≡ pos day }
    ensures year { pos 0 ≤ℤ result.year }
{
    date_of_day(day as i64 - DAYS_BEFORE_1970)
}

/// The day number of a date that is not before 1970.
pub(crate) fn day_from_1970(date: Date) -> u32
    requires { pos 0 ≤ℤ epoch_day date }
    ensures { pos result ≡ epoch_day date }
{
    date.to_plain().to_unix_epoch_day() as u32
}
