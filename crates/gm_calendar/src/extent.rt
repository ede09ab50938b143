// The extent of a bin: its first day and how many it has.
ghost use Rattle.std.specs.Prelude.{◌≤◌};
ghost use Rattle.gm_calendar.specs.Extent.{IsExtent};
ghost use Rattle.gm_calendar.specs.Period.{last_of};
ghost use Rattle.gm_calendar.specs.declared.period.Period.TheVariants.{Day, Week, Month, Year};

use crate::Period;
use crate::calendar::day_from_1970;
use jiff::civil::date;

/// The first day of a bin, from 1970-01-01 on, and the number of its days.
#[derive(Clone, Copy)]
pub(crate) struct Extent {
    pub first: u32,
    pub days: u32,
}

/// The days of a bin.
pub(crate) fn extent_of(period: Period, bin_number: u16) -> Extent
    requires { bin_number ≤ last_of period }
    ensures { IsExtent period bin_number result }
{
    match period {
        Period::Day => day_extent(bin_number),
        Period::Week => week_extent(bin_number),
        Period::Month => month_extent(bin_number),
        Period::Year => year_extent(bin_number),
    }
}

fn day_extent(bin_number: u16) -> Extent
    ensures { IsExtent Day bin_number result }
{
    Extent {
        first: u32::from(bin_number),
        days: 1,
    }
}

fn week_extent(bin_number: u16) -> Extent
    ensures { IsExtent Week bin_number result }
{
    Extent {
        first: u32::from(bin_number) * 7,
        days: 7,
    }
}

fn month_extent(bin_number: u16) -> Extent
    requires { bin_number ≤ 32_767 }
    ensures { IsExtent Month bin_number result }
{
    let first = date(
        1970 + (bin_number / 12) as i16,
        (bin_number % 12) as i8 + 1,
        1,
    );
    Extent {
        first: day_from_1970(first),
        days: first.days_in_month() as u32,
    }
}

fn year_extent(bin_number: u16) -> Extent
    requires { bin_number ≤ 8_029 }
    ensures { IsExtent Year bin_number result }
{
    let first = date(1970 + bin_number as i16, 1, 1);
    Extent {
        first: day_from_1970(first),
        days: first.days_in_year() as u32,
    }
}
