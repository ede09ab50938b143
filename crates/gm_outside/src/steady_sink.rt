// A sink in memory that never fails.
ghost use Rattle.std.specs.Prelude.{◌≡◌, ◌≤◌, ◌<◌, ◌++◌, Some, length, []};
ghost use Rattle.std.specs.Prelude.{IfOk, OnOk, OnErr, IsOk, IsErrOf};
ghost use Rattle.gm_outside.specs.Sink.{within_some};

use crate::{Failed, Sink, SinkRefusal};
use std::alloc::Global;

/// Keeps what is written, and never fails. It may lack memory.
#[derive(Debug, Drop)]
pub struct SteadySink {
    bytes: Vec<u8>,
    flushed: usize,
    ghost inside: { flushed ≤ length bytes.items },
}

impl SteadySink {
    pub fn new(alloc: Global) -> SteadySink
        ensures written { ⟦<SteadySink as Sink>⟧.written result ≡ Some [] }
        ensures flushed { ⟦<SteadySink as Sink>⟧.flushed result ≡ 0 }
    {
        SteadySink {
            bytes: Vec::new(alloc),
            flushed: 0,
        }
    }

    /// All that was written.
    pub fn bytes(&self) -> &[u8]
        ensures { ⟦<SteadySink as Sink>⟧.written self.now ≡ Some result.now }
    {
        &self.bytes
    }
}

impl Sink for SteadySink {
    ghost written = { λ s. Some s.bytes.items };

    ghost flushed = { λ s. s.flushed };

    ghost faults = { λ _. 0 };

    ghost within = { λ s. within_some s.bytes.items s.flushed s.inside };

    fn write(&mut self, _alloc: Global, from: &[u8]) -> Result<usize, SinkRefusal>
        requires { 0 < length from.now }
        ensures all { IfOk result (λ n. n ≡ length from.now) }
        ensures bytes { OnOk result (self.new.bytes.items ≡ self.old.bytes.items ++ from.now) }
        ensures err { OnErr result (self.new.bytes.items ≡ self.old.bytes.items) }
        ensures flushed { self.new.flushed ≡ self.old.flushed }
        ensures never { IsErrOf result SinkRefusal.Failed → ⊥ }
    {
        if self.bytes.extend_from_slice(from).is_err() {
            return Err(SinkRefusal::NoMemory);
        }
        Ok(from.len())
    }

    fn flush(&mut self) -> Result<(), Failed>
        ensures ok { IsOk result }
        ensures flushed { self.new.flushed ≡ length self.old.bytes.items }
        ensures bytes { self.new.bytes ≡ self.old.bytes }
    {
        self.flushed = self.bytes.len();
        Ok(())
    }
}
