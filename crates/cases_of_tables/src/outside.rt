// Cases of sources, sinks and folders.
use crate::words;
use gm_base::{NoMemory, Text};
use gm_outside::{
    Failed, Folder, Gate, MemorySink, MemorySource, NoGate, Sink, SinkRefusal, Source,
    SteadyFolder, SteadySink, SteadySource, StreamSink, StreamSource,
};
use std::alloc::Global;
use std::io;
use std::io::{ErrorKind, Write};

pub fn answer(alloc: Global, word: &str, rest: &str) -> Result<String, NoMemory> {
    match word {
        "reads" => reads(alloc, rest),
        "writes" => writes(alloc, rest),
        "flushes" => flushes(alloc),
        _ => folder(alloc),
    }
}

// What three reads of at most 4 of `abcdef` give. The source in memory gives 2 a call and fails at
// the second.
fn reads(alloc: Global, kind: &str) -> Result<String, NoMemory> {
    let bytes = b"abcdef".to_vec(alloc)?;
    match kind {
        "memory" => {
            let failing = [1u64].to_vec(alloc)?;
            three_reads(alloc, &mut MemorySource::new(bytes, 2, failing))
        }
        "steady" => three_reads(alloc, &mut SteadySource::new(bytes)),
        _ => three_reads(alloc, &mut StreamSource::new(bytes.as_slice())),
    }
}

fn three_reads<S: Source>(alloc: Global, source: &mut S) -> Result<String, NoMemory> {
    let mut all = Vec::new(alloc);
    let mut failed = 0u32;
    for _ in 0..3u32 {
        let mut piece = [0u8; 4];
        match source.read(&mut piece) {
            Ok(n) if n <= piece.len() => all.extend_from_slice(&piece[..n])?,
            Ok(_) => {}
            Err(Failed) => failed = failed.saturating_add(1),
        }
    }
    let text = str::from_utf8(&all).unwrap_or("no text");
    Ok(format!(in alloc; "{text}, {failed} failed")?)
}

// What three writes of `abc` leave, and a flush after them. The sink in memory takes 2 a call and
// fails at the second.
fn writes(alloc: Global, kind: &str) -> Result<String, NoMemory> {
    match kind {
        "memory" => {
            let failing = [1u64].to_vec(alloc)?;
            let mut sink = MemorySink::new(alloc, 2, failing);
            let (taken, failed) = three_writes(alloc, &mut sink);
            let flushed = sink.flush().is_ok();
            let text = str::from_utf8(sink.bytes()).unwrap_or("no text");
            Ok(format!(in alloc;
                "{text}, {taken} taken, {failed} failed, {flushed}, {} flushed, {} calls",
                sink.flushed(),
                sink.calls()
            )?)
        }
        "steady" => {
            let mut sink = SteadySink::new(alloc);
            let (taken, failed) = three_writes(alloc, &mut sink);
            let flushed = sink.flush().is_ok();
            let text = str::from_utf8(sink.bytes()).unwrap_or("no text");
            Ok(format!(in alloc; "{text}, {taken} taken, {failed} failed, {flushed}")?)
        }
        _ => {
            let mut written = Vec::new(alloc);
            let mut sink = StreamSink::new(&mut written);
            let (taken, failed) = three_writes(alloc, &mut sink);
            let flushed = sink.flush().is_ok();
            Ok(format!(in alloc; "{taken} taken, {failed} failed, {flushed}")?)
        }
    }
}

fn three_writes<K: Sink>(alloc: Global, sink: &mut K) -> (usize, u32) {
    let mut taken = 0usize;
    let mut failed = 0u32;
    for _ in 0..3u32 {
        match sink.write(alloc, b"abc") {
            Ok(n) => taken = taken.saturating_add(n),
            Err(SinkRefusal::Failed) => failed = failed.saturating_add(1),
            Err(SinkRefusal::NoMemory) => {}
        }
    }
    (taken, failed)
}

// A writer that takes nothing, and whose flushes fail after the first.
#[derive(Drop)]
struct Picky {
    flushes: u32,
}

impl Write for Picky {
    fn write(&mut self, _buf: &[u8]) -> io::Result<usize> {
        Err(io::Error::from(ErrorKind::Other))
    }

    fn flush(&mut self) -> io::Result<()> {
        self.flushes = self.flushes.saturating_add(1);
        if self.flushes > 1 {
            return Err(io::Error::from(ErrorKind::Other));
        }
        Ok(())
    }
}

// A write that the writer refuses, and two flushes, of which it refuses the second.
fn flushes(alloc: Global) -> Result<String, NoMemory> {
    let mut picky = Picky { flushes: 0 };
    let mut sink = StreamSink::new(&mut picky);
    let wrote = sink.write(alloc, b"abc").is_ok();
    let one = sink.flush().is_ok();
    let other = sink.flush().is_ok();
    Ok(format!(in alloc; "{wrote} {one} {other}, {} flushes", picky.flushes)?)
}

// A call of each kind to the folder that never fails.
fn folder(alloc: Global) -> Result<String, NoMemory> {
    let name = Text::from_str(alloc, "catalogue")?;
    let other = Text::from_str(alloc, "other")?;
    let mut folder = SteadyFolder;
    let opened = folder.open(alloc, &name).is_ok();
    let put = folder.put(alloc, &name, b"x").is_ok();
    let got = folder.get(alloc, &other).is_ok_and(|bytes| bytes.is_none());
    let removed = folder.remove(alloc, &name).is_ok();
    let named = folder.names(alloc).is_ok_and(|names| names.is_empty());
    NoGate.enter(0);
    NoGate.leave(0);
    if opened && put && got && removed && named {
        return words::text(alloc, "keeps nothing");
    }
    words::text(alloc, "keeps something")
}
