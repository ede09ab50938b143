// A sink in memory.
ghost use Rattle.std.specs.Prelude.{◌≡◌, ◌≤◌, ◌<◌, ◌↔◌, ◌++◌, Some, length, take, min};
ghost use Rattle.std.specs.Prelude.{[], true, IfOk, OnOk, OnErr, IsErrOf, is_err};
ghost use Rattle.gm_outside.specs.Sink.{within_some};
ghost use Rattle.gm_base.specs.Counter.{capped_sum};
ghost use Rattle.gm_outside.specs.Failed.{Rose, is_among};

use crate::{Failed, Sink, SinkRefusal};
use std::alloc::Global;

/// Keeps what is written, in pieces, and fails at the calls that it is told.
#[derive(Debug, Drop)]
pub struct MemorySink {
    bytes: Vec<u8>,
    flushed: usize,
    piece: usize,
    calls: u64,
    failing: Vec<u64>,
    faults: u64,
    ghost inside: { flushed ≤ length bytes.items },
    ghost some: { 0 < piece },
}

impl MemorySink {
    /// An empty sink that takes at most `piece` bytes a call, and fails at the calls of `write` and
    /// `flush` with these numbers, from 0.
    pub fn new(alloc: Global, piece: usize, failing: Vec<u64>) -> MemorySink
        requires { 0 < piece }
        ensures written { ⟦<MemorySink as Sink>⟧.written result ≡ Some [] }
        ensures flushed { ⟦<MemorySink as Sink>⟧.flushed result ≡ 0 }
        ensures faults { ⟦<MemorySink as Sink>⟧.faults result ≡ 0 }
        ensures piece { result.piece ≡ piece }
        ensures calls { result.calls ≡ 0 }
        ensures failing { result.failing ≡ failing }
    {
        MemorySink {
            bytes: Vec::new(alloc),
            flushed: 0,
            piece,
            calls: 0,
            failing,
            faults: 0,
        }
    }

    /// All that was written.
    pub fn bytes(&self) -> &[u8]
        ensures { ⟦<MemorySink as Sink>⟧.written self.now ≡ Some result.now }
    {
        &self.bytes
    }

    /// How many of the bytes are flushed.
    pub fn flushed(&self) -> usize
        ensures { result ≡ ⟦<MemorySink as Sink>⟧.flushed self.now }
    {
        self.flushed
    }

    /// The number of calls of `write` and `flush` so far.
    pub fn calls(&self) -> u64
        ensures { result ≡ self.now.calls }
    {
        self.calls
    }

    // Counts a call, and says whether it fails.
    fn fails(&mut self) -> bool
        ensures bytes { self.new.bytes ≡ self.old.bytes }
        ensures flushed { self.new.flushed ≡ self.old.flushed }
        ensures cause { result ≡ true → Rose self.old.faults self.new.faults }
        ensures later { self.old.faults ≤ self.new.faults }
        ensures told { result ≡ is_among self.old.calls self.old.failing.items }
        ensures calls { self.new.calls ≡ capped_sum self.old.calls 1 }
        ensures piece { self.new.piece ≡ self.old.piece }
        ensures failing { self.new.failing ≡ self.old.failing }
    {
        let call = self.calls;
        self.calls = call.saturating_add(1);
        let fails = self.failing.contains(&call);
        if fails {
            self.faults = self.faults.saturating_add(1);
        }
        fails
    }
}

impl Sink for MemorySink {
    ghost written = { λ s. Some s.bytes.items };

    ghost flushed = { λ s. s.flushed };

    ghost faults = { λ s. s.faults };

    ghost within = { λ s. within_some s.bytes.items s.flushed s.inside };

    fn write(&mut self, _alloc: Global, from: &[u8]) -> Result<usize, SinkRefusal>
        requires { 0 < length from.now }
        ensures some { IfOk result (λ n. 0 < n) }
        ensures bytes { IfOk result (λ n. self.new.bytes.items
            ≡ self.old.bytes.items ++ take n from.now) }
        ensures err { OnErr result (self.new.bytes.items ≡ self.old.bytes.items) }
        ensures flushed { self.new.flushed ≡ self.old.flushed }
        ensures cause { IsErrOf result SinkRefusal.Failed → Rose self.old.faults self.new.faults }
        ensures later { self.old.faults ≤ self.new.faults }

        // How it is cut and failed.
        ensures size { IfOk result (λ n. n ≡ min self.old.piece (length from.now)) }
        ensures fails { IsErrOf result SinkRefusal.Failed
            ↔ (is_among self.old.calls self.old.failing.items ≡ true) }
        ensures calls { self.new.calls ≡ capped_sum self.old.calls 1 }
        ensures piece { self.new.piece ≡ self.old.piece }
        ensures failing { self.new.failing ≡ self.old.failing }
    {
        if self.fails() {
            return Err(SinkRefusal::Failed);
        }
        let n = self.piece.min(from.len());
        if self.bytes.extend_from_slice(&from[..n]).is_err() {
            return Err(SinkRefusal::NoMemory);
        }
        Ok(n)
    }

    fn flush(&mut self) -> Result<(), Failed>
        ensures ok { OnOk result (self.new.flushed ≡ length self.old.bytes.items) }
        ensures err { OnErr result (self.new.flushed ≡ self.old.flushed) }
        ensures bytes { self.new.bytes ≡ self.old.bytes }
        ensures cause { OnErr result (Rose self.old.faults self.new.faults) }
        ensures later { self.old.faults ≤ self.new.faults }

        // How it is failed.
        ensures fails { is_err result ≡ is_among self.old.calls self.old.failing.items }
        ensures calls { self.new.calls ≡ capped_sum self.old.calls 1 }
        ensures piece { self.new.piece ≡ self.old.piece }
        ensures failing { self.new.failing ≡ self.old.failing }
    {
        if self.fails() {
            return Err(Failed);
        }
        self.flushed = self.bytes.len();
        Ok(())
    }
}
