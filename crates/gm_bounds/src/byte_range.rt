// Ranges of bytes.
ghost use Rattle.std.specs.Prelude.{◌≡◌, IfOk};
ghost use Rattle.gm_bounds.specs.ByteRange as spec;

use crate::member::Member;
use gm_base::{Bytes, NoMemory};
use std::alloc::Global;

/// The bytes from a low end, which is included, to a high end, which is not. Without a high end it
/// goes on to the last.
#[derive(Debug, Drop)]
pub struct ByteRange {
    pub low: Bytes,
    pub high: Option<Bytes>,
}

impl Member for ByteRange {
    ghost met = { spec.met };

    ghost joined = { spec.joined };

    ghost is_void = { spec.is_void };

    fn meet(&self, alloc: Global, other: &ByteRange) -> Result<ByteRange, NoMemory> {
        let low = later_of(&self.low, &other.low).copy(alloc)?;
        let high = copy_end(alloc, earlier_of(&self.high, &other.high))?;
        Ok(ByteRange { low, high })
    }

    fn join(self, other: ByteRange) -> ByteRange {
        let ByteRange { low, high } = self;
        ByteRange {
            low: earlier_start(low, other.low),
            high: later_end(high, other.high),
        }
    }

    fn is_empty(&self) -> bool {
        match &self.high {
            Some(high) => *high <= self.low,
            None => false,
        }
    }
}

fn later_of<'a>(one: &'a Bytes, other: &'a Bytes) -> &'a Bytes
    ensures { result.now ≡ spec.greater one.now other.now }
{
    if *one < *other { other } else { one }
}

fn earlier_of<'a>(one: &'a Option<Bytes>, other: &'a Option<Bytes>) -> &'a Option<Bytes>
    ensures { result.now ≡ spec.less_end one.now other.now }
{
    match (one, other) {
        (Some(a), Some(b)) => if *b < *a { other } else { one },
        (Some(_), None) => one,
        (None, _) => other,
    }
}

fn copy_end(alloc: Global, end: &Option<Bytes>) -> Result<Option<Bytes>, NoMemory>
    ensures { IfOk result (λ copy. copy ≡ end.now) }
{
    match end {
        Some(bytes) => Ok(Some(bytes.copy(alloc)?)),
        None => Ok(None),
    }
}

fn earlier_start(one: Bytes, other: Bytes) -> Bytes
    ensures { result ≡ spec.less one other }
{
    if other < one { other } else { one }
}

fn later_end(one: Option<Bytes>, other: Option<Bytes>) -> Option<Bytes>
    ensures { result ≡ spec.greater_end one other }
{
    match (one, other) {
        (Some(a), Some(b)) => Some(if a < b { b } else { a }),
        _ => None,
    }
}
