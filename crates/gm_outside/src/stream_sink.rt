// A sink over a writer of std, such as standard output.
ghost use Rattle.std.specs.Prelude.{◌≡◌, ◌≤◌, ◌<◌, None, length, IfOk, OnErr, IsErrOf};
ghost use Rattle.std.specs.Io.KnownBytes.{Keeps, WriteAppends};
ghost use Rattle.gm_outside.specs.Sink.{within_none};
ghost use Rattle.gm_outside.specs.Failed.{Rose};

use crate::{Failed, Sink, SinkRefusal};
use std::alloc::Global;
use std::io::Write;

/// Hands on what is written. As a sink it tells nothing of it; `write` says what the writer then
/// holds, where the writer tells that. Each error of the writer is a fault, and so is a write that
/// takes nothing. It takes no memory of its own.
#[derive(Debug, Drop)]
pub struct StreamSink<W: Write> {
    writer: W,
    faults: u64,
}

impl<W: Write> StreamSink<W> {
    pub fn new(writer: W) -> StreamSink<W>
        ensures writer { result.writer ≡ writer }
        ensures faults { ⟦<StreamSink<W> as Sink>⟧.faults result ≡ 0 }
    {
        StreamSink { writer, faults: 0 }
    }
}

impl<W: Write> Sink for StreamSink<W> {
    ghost written = { λ _. None };

    ghost flushed = { λ _. 0 };

    ghost faults = { λ s. s.faults };

    ghost within = { λ _. within_none 0 };

    fn write(&mut self, _alloc: Global, from: &[u8]) -> Result<usize, SinkRefusal>
        ensures some { IfOk result (λ n. 0 < n) }
        ensures fits { IfOk result (λ n. n ≤ length from.now) }
        ensures cause { IsErrOf result SinkRefusal.Failed → Rose self.old.faults self.new.faults }
        ensures memory { IsErrOf result SinkRefusal.NoMemory → ⊥ }
        ensures later { self.old.faults ≤ self.new.faults }
        ensures writer { WriteAppends (W.contents self.old.writer)
            (W.contents self.new.writer) result from.now }
    {
        match self.writer.write(from) {
            Ok(n) if n > 0 => Ok(n),
            _ => {
                self.faults = self.faults.saturating_add(1);
                Err(SinkRefusal::Failed)
            }
        }
    }

    fn flush(&mut self) -> Result<(), Failed>
        ensures cause { OnErr result (Rose self.old.faults self.new.faults) }
        ensures later { self.old.faults ≤ self.new.faults }
        ensures writer { Keeps (W.contents self.old.writer) (W.contents self.new.writer) }
    {
        match self.writer.flush() {
            Ok(()) => Ok(()),
            Err(_) => {
                self.faults = self.faults.saturating_add(1);
                Err(Failed)
            }
        }
    }
}
