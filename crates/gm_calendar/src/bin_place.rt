// The place of a millisecond among the bins of a period.
ghost use Rattle.std.specs.Prelude.{◌≤◌};
ghost use Rattle.gm_calendar.specs.BinPlace.{IsBinPlace};
ghost use Rattle.gm_calendar.specs.declared.period.Period.TheVariants.{Day, Week, Month, Year};

use crate::Period;
use crate::calendar::{DAY_MS, date_from_1970};

const WEEK_MS: u64 = 7 * DAY_MS;

/// A number of milliseconds since 1970: the bin in which it falls, and what it is above its start.
#[derive(Clone, Copy)]
pub(crate) struct BinPlace {
    pub number: u64,
    pub rest: u64,
}

/// The bin of a millisecond, however large its number.
pub(crate) fn bin_place_of(period: Period, ms: u64) -> BinPlace
    requires { ms ≤ 253_402_300_799_999 }
    ensures { IsBinPlace period ms result }
{
    match period {
        Period::Day => day_place(ms),
        Period::Week => week_place(ms),
        Period::Month => month_place(ms),
        Period::Year => year_place(ms),
    }
}

fn day_place(ms: u64) -> BinPlace
    ensures { IsBinPlace Day ms result }
{
    BinPlace {
        number: ms / DAY_MS,
        rest: ms % DAY_MS,
    }
}

fn week_place(ms: u64) -> BinPlace
    ensures { IsBinPlace Week ms result }
{
    BinPlace {
        number: ms / WEEK_MS,
        rest: ms % WEEK_MS,
    }
}

fn month_place(ms: u64) -> BinPlace
    requires { ms ≤ 253_402_300_799_999 }
    ensures { IsBinPlace Month ms result }
{
    let date = date_from_1970(ms / DAY_MS);
    let years = (date.year() - 1970) as u64;
    BinPlace {
        number: years * 12 + (date.month() as u64 - 1),
        rest: (date.day() as u64 - 1) * DAY_MS + ms % DAY_MS,
    }
}

fn year_place(ms: u64) -> BinPlace
    requires { ms ≤ 253_402_300_799_999 }
    ensures { IsBinPlace Year ms result }
{
    let date = date_from_1970(ms / DAY_MS);
    BinPlace {
        number: (date.year() - 1970) as u64,
        rest: (date.day_of_year() as u64 - 1) * DAY_MS + ms % DAY_MS,
    }
}
