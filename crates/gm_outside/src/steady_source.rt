// A source in memory that never fails.
ghost use Rattle.std.specs.Prelude.{◌≡◌, ◌≤◌, ◌<◌, Some, take, drop, length, min, IfOk, IsOk};
ghost use Rattle.std.specs.Option.{ForSome};
ghost use Rattle.gm_outside.specs.Source.{Gives};

use crate::giving::give;
use crate::{Failed, Source};

/// Gives as many of its bytes as there is room for, and never fails.
#[derive(Debug, Drop)]
pub struct SteadySource {
    bytes: Vec<u8>,
    at: usize,
    ghost inside: { at ≤ length bytes.items },
}

impl SteadySource {
    pub fn new(bytes: Vec<u8>) -> SteadySource
        ensures { ⟦<SteadySource as Source>⟧.left result ≡ Some bytes.items }
    {
        SteadySource { bytes, at: 0 }
    }
}

impl Source for SteadySource {
    ghost left = { λ s. Some (drop s.at s.bytes.items) };

    ghost faults = { λ _. 0 };

    fn read(&mut self, into: &mut [u8]) -> Result<usize, Failed>
        requires { 0 < length into.old }
        ensures ok { IsOk result }
        ensures all { IfOk result (λ n. n
            ≡ min (length into.old) (length (drop self.old.at self.old.bytes.items))) }
        ensures bytes { IfOk result (λ n. ForSome (Some (drop self.old.at self.old.bytes.items))
            (λ bytes. Gives bytes (take n into.new)
            (Some (drop self.new.at self.new.bytes.items)))) }
    {
        let n = give(&self.bytes[self.at..], usize::MAX, into);
        self.at += n;
        Ok(n)
    }
}
