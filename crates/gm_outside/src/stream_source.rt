// A source over a reader of std, such as standard input.
ghost use Rattle.std.specs.Prelude.{◌≡◌, ◌≤◌, None, length, IfOk, OnErr};
ghost use Rattle.std.specs.Io.KnownBytes.{ReadConsumes};
ghost use Rattle.gm_outside.specs.Failed.{Rose};

use crate::{Failed, Source};
use std::io::Read;

/// Gives what the reader gives. As a source it tells nothing of it; `read` says what the reader
/// then has left, where the reader tells that. Each error of the reader is a fault.
#[derive(Debug, Drop)]
pub struct StreamSource<R: Read> {
    reader: R,
    faults: u64,
}

impl<R: Read> StreamSource<R> {
    pub fn new(reader: R) -> StreamSource<R>
        ensures reader { result.reader ≡ reader }
        ensures faults { ⟦<StreamSource<R> as Source>⟧.faults result ≡ 0 }
    {
        StreamSource { reader, faults: 0 }
    }
}

impl<R: Read> Source for StreamSource<R> {
    ghost left = { λ _. None };

    ghost faults = { λ s. s.faults };

    fn read(&mut self, into: &mut [u8]) -> Result<usize, Failed>
        ensures fits { IfOk result (λ n. n ≤ length into.old) }
        ensures cause { OnErr result (Rose self.old.faults self.new.faults) }
        ensures later { self.old.faults ≤ self.new.faults }
        ensures reader { ReadConsumes (R.remaining self.old.reader)
            (R.remaining self.new.reader) result into.new }
    {
        match self.reader.read(into) {
            Ok(n) => Ok(n),
            Err(_) => {
                self.faults = self.faults.saturating_add(1);
                Err(Failed)
            }
        }
    }
}
