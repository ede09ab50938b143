// Periods: the lengths of bins, and what offsets in them count, as in GeoMesa's binned time.
ghost use Rattle.std.specs.Prelude.{◌≡◌};
ghost use Rattle.gm_calendar.specs.Period.{last_of, longest_of, unit_of};

/// What a bin is: a day, a week from Thursday on, a month or a year, in UTC. Bins are numbered from
/// 1970-01-01 on, and offsets have the units of GeoMesa's binned time.
#[derive(Clone, Copy, Debug, PartialEq, Eq)]
pub enum Period {
    /// 24 hours, whose offsets count milliseconds.
    Day,

    /// Seven days, whose offsets count seconds. The first begins on Thursday, 1970-01-01.
    Week,

    /// A calendar month, whose offsets count seconds.
    Month,

    /// A calendar year, whose offsets count minutes.
    Year,
}

/// The greatest number of a bin.
pub fn last_bin(period: Period) -> u16
    ensures { result ≡ last_of period }
{
    match period {
        Period::Day | Period::Week | Period::Month => 32_767,
        Period::Year => 8_029,
    }
}

/// The length of the longest bin, in the unit of the period's offsets.
pub fn span_of(period: Period) -> u64
    ensures { result ≡ longest_of period }
{
    match period {
        Period::Day => 86_400_000,
        Period::Week => 604_800,
        Period::Month => 2_678_400,
        Period::Year => 527_040,
    }
}

// The milliseconds in a unit of the period's offsets.
pub(crate) fn unit_ms(period: Period) -> u64
    ensures { result ≡ unit_of period }
{
    match period {
        Period::Day => 1,
        Period::Week | Period::Month => 1_000,
        Period::Year => 60_000,
    }
}
