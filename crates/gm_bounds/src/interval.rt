// Intervals of time.
ghost use Rattle.std.specs.Prelude.{◌≡◌};
ghost use Rattle.gm_bounds.specs.Interval as spec;

use crate::member::Member;
use gm_base::NoMemory;
use std::alloc::Global;

/// A closed interval of milliseconds since 1970-01-01T00:00:00Z. Where an end is missing it goes
/// on.
#[derive(Clone, Copy, Debug, PartialEq, Eq)]
pub struct Interval {
    pub low: Option<i64>,
    pub high: Option<i64>,
}

impl Member for Interval {
    ghost met = { spec.met };

    ghost joined = { spec.joined };

    ghost is_void = { spec.is_void };

    fn meet(&self, _alloc: Global, other: &Interval) -> Result<Interval, NoMemory> {
        Ok(Interval {
            low: later_start(self.low, other.low),
            high: earlier_end(self.high, other.high),
        })
    }

    fn join(self, other: Interval) -> Interval {
        Interval {
            low: earlier_start(self.low, other.low),
            high: later_end(self.high, other.high),
        }
    }

    fn is_empty(&self) -> bool {
        match (self.low, self.high) {
            (Some(low), Some(high)) => high < low,
            _ => false,
        }
    }
}

fn later_start(one: Option<i64>, other: Option<i64>) -> Option<i64>
    ensures { result ≡ spec.greater_if_any one other }
{
    match (one, other) {
        (Some(a), Some(b)) => Some(a.max(b)),
        (Some(a), None) => Some(a),
        (None, other) => other,
    }
}

fn earlier_end(one: Option<i64>, other: Option<i64>) -> Option<i64>
    ensures { result ≡ spec.less_if_any one other }
{
    match (one, other) {
        (Some(a), Some(b)) => Some(a.min(b)),
        (Some(a), None) => Some(a),
        (None, other) => other,
    }
}

fn earlier_start(one: Option<i64>, other: Option<i64>) -> Option<i64>
    ensures { result ≡ spec.less_if_both one other }
{
    match (one, other) {
        (Some(a), Some(b)) => Some(a.min(b)),
        _ => None,
    }
}

fn later_end(one: Option<i64>, other: Option<i64>) -> Option<i64>
    ensures { result ≡ spec.greater_if_both one other }
{
    match (one, other) {
        (Some(a), Some(b)) => Some(a.max(b)),
        _ => None,
    }
}
