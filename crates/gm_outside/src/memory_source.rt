// A source in memory.
ghost use Rattle.std.specs.Prelude.{◌≡◌, ◌≤◌, ◌<◌, Some, take, drop, length};
ghost use Rattle.std.specs.Prelude.{min, IfOk, OnErr, is_err};
ghost use Rattle.std.specs.Option.{ForSome};
ghost use Rattle.gm_base.specs.Counter.{capped_sum};
ghost use Rattle.gm_outside.specs.Failed.{Rose, is_among};
ghost use Rattle.gm_outside.specs.Source.{Gives};

use crate::giving::give;
use crate::{Failed, Source};

/// Gives its bytes in pieces, and fails at the calls that it is told.
#[derive(Debug, Drop)]
pub struct MemorySource {
    bytes: Vec<u8>,
    at: usize,
    piece: usize,
    calls: u64,
    failing: Vec<u64>,
    faults: u64,
    ghost inside: { at ≤ length bytes.items },
    ghost some: { 0 < piece },
}

impl MemorySource {
    /// A source of these bytes, at most `piece` of them a call, that fails at the calls with these
    /// numbers, from 0.
    pub fn new(bytes: Vec<u8>, piece: usize, failing: Vec<u64>) -> MemorySource
        requires { 0 < piece }
        ensures left { ⟦<MemorySource as Source>⟧.left result ≡ Some bytes.items }
        ensures faults { ⟦<MemorySource as Source>⟧.faults result ≡ 0 }
        ensures piece { result.piece ≡ piece }
        ensures calls { result.calls ≡ 0 }
        ensures failing { result.failing ≡ failing }
    {
        MemorySource {
            bytes,
            at: 0,
            piece,
            calls: 0,
            failing,
            faults: 0,
        }
    }

    /// The number of calls of `read` so far.
    pub fn calls(&self) -> u64
        ensures { result ≡ self.now.calls }
    {
        self.calls
    }
}

impl Source for MemorySource {
    ghost left = { λ s. Some (drop s.at s.bytes.items) };

    ghost faults = { λ s. s.faults };

    fn read(&mut self, into: &mut [u8]) -> Result<usize, Failed>
        requires { 0 < length into.old }
        ensures fits { IfOk result (λ n. n ≤ length into.old) }
        ensures bytes { IfOk result (λ n. ForSome (Some (drop self.old.at self.old.bytes.items))
            (λ bytes. Gives bytes (take n into.new)
            (Some (drop self.new.at self.new.bytes.items)))) }
        ensures err { OnErr result (self.new.at ≡ self.old.at) }
        ensures same { self.new.bytes ≡ self.old.bytes }
        ensures cause { OnErr result (Rose self.old.faults self.new.faults) }
        ensures later { self.old.faults ≤ self.new.faults }

        // How it is cut and failed.
        ensures size { IfOk result (λ n. n
            ≡ min self.old.piece (min (length into.old)
            (length (drop self.old.at self.old.bytes.items)))) }
        ensures fails { is_err result ≡ is_among self.old.calls self.old.failing.items }
        ensures calls { self.new.calls ≡ capped_sum self.old.calls 1 }
        ensures piece { self.new.piece ≡ self.old.piece }
        ensures failing { self.new.failing ≡ self.old.failing }
    {
        let call = self.calls;
        self.calls = call.saturating_add(1);
        if self.failing.contains(&call) {
            self.faults = self.faults.saturating_add(1);
            return Err(Failed);
        }
        let n = give(&self.bytes[self.at..], self.piece, into);
        self.at += n;
        Ok(n)
    }
}
