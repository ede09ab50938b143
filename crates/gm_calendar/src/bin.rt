// Bins: the numbers of the periods that follow one another from 1970 on.
ghost use Rattle.std.specs.Prelude.{◌≡◌, ◌↔◌, ℕ, ℤ, ◌<◌, ◌≤◌, ◌<ℤ◌, ◌≤ℤ◌, IfSome, MatchOption};
ghost use Rattle.gm_calendar.specs.Bin.{first_ms, last_ms, bin_at, HasNumber, LiesIn};
ghost use Rattle.gm_calendar.specs.Bin.{IsBinOf, IsNotAfter, HasNoBin};
ghost use Rattle.gm_calendar.specs.declared.bin.Bin.{Bin};
ghost use Rattle.gm_calendar.specs.Period.{last_of, longest_of};

use crate::bin_place::bin_place_of;
use crate::calendar::DAY_MS;
use crate::extent::extent_of;
use crate::period::{last_bin, unit_ms};
use crate::{Instant, Period};

/// A moment in a bin: the bin's number, and the time since its start in the unit of the period.
#[derive(Clone, Copy, Debug, PartialEq, Eq)]
pub struct Bin {
    pub number: u16,
    pub offset: u32,
}

/// The bin of an instant, and None before 1970 and past the last bin.
pub fn bin_of(period: Period, at: Instant) -> Option<Bin>
    ensures by_starts { MatchOption result (HasNoBin period at) (IsBinOf period at) }
    ensures value { result ≡ bin_at period at }
    ensures offset { IfSome result (λ bin. bin.offset < longest_of period) }
{
    let ms = at.ms();
    if ms < 0 {
        return None;
    }
    let bin_place = bin_place_of(period, ms as u64);
    if bin_place.number > u64::from(last_bin(period)) {
        return None;
    }
    Some(Bin {
        number: bin_place.number as u16,
        offset: (bin_place.rest / unit_ms(period)) as u32,
    })
}

/// The first and the last millisecond of a bin.
pub fn bin_span(period: Period, bin_number: u16) -> (i64, i64)
    requires { bin_number ≤ last_of period }
    ensures first { result.0 ≡ first_ms period bin_number }
    ensures last { result.1 ≡ last_ms period bin_number }
{
    let extent = extent_of(period, bin_number);
    let first = u64::from(extent.first) * DAY_MS;
    let next = first + u64::from(extent.days) * DAY_MS;
    (first as i64, next as i64 - 1)
}

/// The laws of the bins of a period, for proofs: what the definition of an instant's bin means by
/// the starts, which instants a bin has, that bins follow one another, and that later instants
/// have no earlier bin or offset. It does nothing.
pub fn bins_follow_time(period: Period)
    ensures by_starts { (at : ℤ)
        → MatchOption (bin_at period at) (HasNoBin period at) (IsBinOf period at) }
    ensures span { (at : ℤ) (number : ℕ) → number ≤ last_of period
        → HasNumber period at number ↔ LiesIn period at number }
    ensures offset { (at : ℤ) → IfSome (bin_at period at) (λ bin. bin.offset < longest_of period) }
    ensures starts { (number later : ℕ) → number < later
        → last_ms period number <ℤ first_ms period later }
    ensures order { (earlier later : ℤ) (a b : Bin) → earlier ≤ℤ later
        → bin_at period earlier ≡ Some a → bin_at period later ≡ Some b → IsNotAfter a b }
{}
