//! The program `gm`: a feature store that reads a script of commands from standard input and writes
//! one reply a command to standard output. All that it does stands in `gm_program::run`.
#![tactic(auto)]

use gm_base::{Tally, Text};
use gm_outside::{NoGate, SteadyFolder, StreamSink, StreamSource};
use gm_program::{Status, Store, run};
use gm_table::BlockTable;
use std::alloc::Global;
use std::env::Env;
use std::process::ExitCode;
use std::{env, io};

fn main(rt: HostRuntime) -> ExitCode {
    let status = match words_of(&rt, rt.alloc()) {
        Ok(words) => serve(&rt, rt.alloc(), &words),
        Err(status) => status,
    };
    report(&rt, status);
    ExitCode::from(status.number())
}

// The words after the program's name.
fn words_of(rt: &(impl Env + AllocGlobal), alloc: Global) -> Result<Vec<Text>, Status> {
    let args = match env::args(rt) {
        Ok(args) => args,
        Err(error) => {
            return Err(match error.kind() {
                io::ErrorKind::OutOfMemory => Status::NoMemory,
                _ => Status::Usage,
            });
        }
    };
    let mut words = Vec::new(alloc);
    for word in args.skip(1) {
        if words.push(Text::from_string(word)).is_err() {
            return Err(Status::NoMemory);
        }
    }
    Ok(words)
}

// A run over the streams of the process and an empty table.
fn serve<R: Input + Print>(rt: &R, alloc: Global, words: &[Text]) -> Status {
    let mut source = StreamSource::new(rt.reader());
    let mut sink = StreamSink::new(io::writer(rt));
    let mut store = Store::new(alloc, BlockTable::new(alloc));
    let mut tally = Tally::new();
    let status = run(
        alloc,
        words,
        &mut source,
        &mut sink,
        &mut SteadyFolder,
        &NoGate,
        &mut store,
        &mut tally,
    );
    let _rows = tally.close();
    status
}

// One line for each status but `Done`. That standard error can't be written is no further fault.
fn report(rt: &impl Eprint, status: Status) {
    let told = match status {
        Status::Done => return,
        Status::NoMemory => "gm: no memory",
        Status::Usage => "gm: usage: gm [--folder DIR] [--threads N] [--generate SEED:COUNT]",
        Status::ReadFault => "gm: reading failed",
        Status::WriteFault => "gm: writing failed",
        Status::FolderFault => "gm: folder failed",
        Status::Damaged => "gm: folder damaged",
        Status::TooLong => "gm: script too long",
    };
    let _ = eprintln!(rt; "{told}");
}
