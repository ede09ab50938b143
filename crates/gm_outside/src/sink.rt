// Where replies go.
ghost use Rattle.std.specs.Prelude.{◌≡◌, ◌≤◌, ◌<◌, ◌++◌, ℕ, List, Option, Some};
ghost use Rattle.std.specs.Prelude.{length, take, IfOk, OnOk, OnErr, IsErrOf};
ghost use Rattle.std.specs.Option.{ForSome};
ghost use Rattle.gm_outside.specs.Failed.{Rose};
ghost use Rattle.gm_outside.specs.Sink.{IsWithin};

use crate::Failed;
use std::alloc::Global;

/// Why a sink took nothing.
#[derive(Clone, Copy, Debug, PartialEq, Eq)]
pub enum SinkRefusal {
    /// The device failed, which counts as a fault.
    Failed,

    /// There was no memory for the bytes.
    NoMemory,
}

/// Takes bytes in order.
pub trait Sink {
    /// The bytes that were written, where the sink tells them.
    ghost written: { Self → Option (List ℕ) };

    /// How many of them are flushed.
    ghost flushed: { Self → ℕ };

    /// How often it has failed, as far as a u64 counts.
    ghost faults: { Self → ℕ };

    /// Appends the first of these bytes, at least one, and says how many.
    fn write(&mut self, alloc: Global, from: &[u8]) -> Result<usize, SinkRefusal>
        requires { 0 < length from.now }
        ensures some { IfOk result (λ n. 0 < n) }
        ensures fits { IfOk result (λ n. n ≤ length from.now) }
        ensures bytes { IfOk result
            (λ n. ForSome (written self.old) (λ bytes. written self.new
            ≡ Some (bytes ++ take n from.now))) }
        ensures err { OnErr result (written self.new ≡ written self.old) }
        ensures flushed { flushed self.old ≤ flushed self.new }
        ensures cause { IsErrOf result SinkRefusal.Failed
            → Rose (faults self.old) (faults self.new) }
        ensures later { faults self.old ≤ faults self.new };

    /// Sees to it that what was written is out of the program's hands.
    fn flush(&mut self) -> Result<(), Failed>
        ensures ok { OnOk result (ForSome (written self.old) (λ bytes. flushed self.new
            ≡ length bytes)) }
        ensures bytes { written self.new ≡ written self.old }
        ensures flushed { flushed self.old ≤ flushed self.new }
        ensures cause { OnErr result (Rose (faults self.old) (faults self.new)) }
        ensures later { faults self.old ≤ faults self.new };

    /// No more is flushed than was written.
    ghost within: { (sink : Self) → IsWithin (written sink) (flushed sink) };
}
