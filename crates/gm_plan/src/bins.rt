// The bins that intervals of time meet.
ghost use Rattle.std.specs.Prelude.{◌≡◌, ◌≤◌, ◌<◌, ◌+◌, ◌≤ℤ◌, ◌++◌, ◌∷◌, [], pos};
ghost use Rattle.std.specs.Prelude.{min, filter, false, ℕ, All, IfOk, OnOk};
ghost use Rattle.gm_calendar.specs.Bin.{LiesIn, first_ms, last_ms};
ghost use Rattle.gm_calendar.specs.Instant.{last_instant};
ghost use Rattle.gm_calendar.specs.Period.{last_of, longest_of, unit_of};
ghost use Rattle.gm_plan.specs.Bins as spec;

use gm_base::NoMemory;
use gm_bounds::Interval;
use gm_calendar::{Instant, LAST_MS, Period, bin_of, bin_span, bins_follow_time, last_bin};
use std::alloc::Global;

/// The first millisecond of an interval in a bin, and its last. Where they don't meet, the last is
/// below the first.
pub(crate) fn part_in(period: Period, bin_number: u16, interval: Interval) -> (i64, i64)
    requires { bin_number ≤ last_of period }
    ensures start { result.0 ≡ spec.start_in period bin_number interval }
    ensures end { result.1 ≡ spec.end_in period bin_number interval }
{
    let (first, last) = bin_span(period, bin_number);
    (
        not_before(interval.low, first),
        not_after(interval.high, last),
    )
}

fn not_before(low: Option<i64>, at: i64) -> i64
    ensures { result ≡ spec.not_before low at }
{
    match low {
        Some(low) => low.max(at),
        None => at,
    }
}

fn not_after(high: Option<i64>, at: i64) -> i64
    ensures { result ≡ spec.not_after high at }
{
    match high {
        Some(high) => high.min(at),
        None => at,
    }
}

/// Whether the interval meets the bin.
pub(crate) fn meets_bin(period: Period, bin_number: u16, interval: Interval) -> bool
    requires { bin_number ≤ last_of period }
    ensures { result ≡ spec.meets_bin period bin_number interval }
{
    let (start, end) = part_in(period, bin_number, interval);
    start <= end
}

fn is_met(period: Period, intervals: &[Interval], bin_number: u16) -> bool
    requires { bin_number ≤ last_of period }
    ensures { result ≡ spec.is_met period intervals.now bin_number }
{
    'intervals: for interval in intervals {
        if meets_bin(period, bin_number, *interval) {
            return true;
        }
    }
    false
}

// The milliseconds in a unit of the period's offsets.
fn unit_ms(period: Period) -> u64
    ensures { result ≡ unit_of period }
{
    match period {
        Period::Day => 1,
        Period::Week | Period::Month => 1_000,
        Period::Year => 60_000,
    }
}

/// The offset in a bin of one of its milliseconds.
pub(crate) fn offset_in(period: Period, bin_number: u16, at: i64) -> u32
    requires numbered { bin_number ≤ last_of period }
    requires lies { LiesIn period at bin_number }
    ensures offset { result ≡ spec.offset_in period bin_number at }
    ensures within { result < longest_of period }
{
    bins_follow_time(period);
    let (first, _) = bin_span(period, bin_number);
    let ms = (at - first) as u64;
    (ms / unit_ms(period)) as u32
}

/// The bins that one of the intervals meets, each once, the first first.
#[tactic(auto, using(crate::proofs::Times::met_next))]
pub(crate) fn bins_of(
    alloc: Global,
    period: Period,
    intervals: &[Interval],
) -> Result<Vec<u16>, NoMemory>
    ensures value { IfOk result (λ bins. bins.items ≡ spec.bins_of period intervals.now) }
    ensures numbered { IfOk result (λ bins. All (λ bin. bin ≤ last_of period) bins.items) }
{
    let mut bins = Vec::new(alloc);
    let first = first_bin(period, intervals);
    let end = end_bin(period, intervals);
    'bins: for bin in first..end {
        push_met(&mut bins, period, intervals, bin)?;
    }
    Ok(bins)
}

// Adds a bin, if an interval meets it.
fn push_met(
    bins: &mut Vec<u16>,
    period: Period,
    intervals: &[Interval],
    bin_number: u16,
) -> Result<(), NoMemory>
    requires { bin_number ≤ last_of period }
    ensures { OnOk result (bins.new.items
        ≡ bins.old.items ++ filter (spec.is_met period intervals.now) (bin_number ∷ [])) }
{
    if is_met(period, intervals, bin_number) {
        bins.push(bin_number)?;
    }
    Ok(())
}

// No bin before this one is met.
fn first_bin(period: Period, intervals: &[Interval]) -> u16
    ensures within { result ≤ last_of period + 1 }
    ensures none { (number : ℕ) → number < result
        → spec.is_met period intervals.now number ≡ false }
{
    let mut first = last_bin(period) + 1;
    'intervals: for interval in intervals {
        first = first.min(first_of(period, *interval));
    }
    first
}

// No bin from this one on is met.
fn end_bin(period: Period, intervals: &[Interval]) -> u16
    ensures within { result ≤ last_of period + 1 }
    ensures none { (number : ℕ) → result ≤ number → number ≤ last_of period
        → spec.is_met period intervals.now number ≡ false }
{
    let mut end = 0;
    'intervals: for interval in intervals {
        end = end.max(end_of(period, *interval));
    }
    end
}

// No bin before this one meets the interval.
fn first_of(period: Period, interval: Interval) -> u16
    ensures within { result ≤ last_of period + 1 }
    ensures none { (number : ℕ) → number < result → spec.meets_bin period number interval ≡ false }
{
    bins_follow_time(period);
    match interval.low {
        None => 0,
        Some(low) => number_of(period, low.max(0).min(LAST_MS)),
    }
}

// No bin from this one on meets the interval.
fn end_of(period: Period, interval: Interval) -> u16
    ensures within { result ≤ last_of period + 1 }
    ensures none { (number : ℕ) → result ≤ number → number ≤ last_of period
        → spec.meets_bin period number interval ≡ false }
{
    bins_follow_time(period);
    match interval.high {
        None => last_bin(period) + 1,
        Some(high) => {
            if high > LAST_MS {
                return last_bin(period) + 1;
            }
            behind(period, number_of(period, high.max(0)))
        }
    }
}

// The next bin, up to the one behind the last.
fn behind(period: Period, bin_number: u16) -> u16
    requires { bin_number ≤ last_of period + 1 }
    ensures { result ≡ min (bin_number + 1) (last_of period + 1) }
{
    if bin_number <= last_bin(period) {
        bin_number + 1
    } else {
        bin_number
    }
}

// The bin of a millisecond, and behind the last the one that would follow.
fn number_of(period: Period, ms: i64) -> u16
    requires first { pos 0 ≤ℤ ms }
    requires last { ms ≤ℤ pos last_instant }
    ensures within { result ≤ last_of period + 1 }
    ensures before { first_ms period result ≤ℤ ms }
    ensures behind { result ≤ last_of period → ms ≤ℤ last_ms period result }
{
    bins_follow_time(period);
    match Instant::of(ms) {
        Some(at) => match bin_of(period, at) {
            Some(bin) => bin.number,
            None => last_bin(period) + 1,
        },
        None => last_bin(period) + 1,
    }
}
