// Runs over sources and sinks in memory.
ghost use Rattle.std.specs.Prelude.{◌≡◌, ◌<◌, IfOk};
ghost use Rattle.gm_program.specs.Store.{HasState};

use crate::plan::{Failing, Plan};
use crate::script::{Script, Scripts};
use gm_base::{Counter, NoMemory, Tally, Text};
use gm_outside::{MemorySink, MemorySource, NoGate, SteadyFolder, SteadySink, SteadySource};
use gm_program::{Status, Store, run};
use gm_table::{BlockTable, MapTable, Sorted};
use std::alloc::Global;

/// No case has as many calls of a device.
const CALLS: u64 = 10_000;

// How a run ended: its status, the rows that it read, what it wrote, and how much of it is flushed.
#[derive(Drop)]
struct Ended {
    status: Status,
    rows: u64,
    written: Vec<u8>,
    flushed: usize,
}

/// What the runs of a case wrote, and how each ended.
pub(crate) fn told(alloc: Global, plan: Plan, scripts: Scripts) -> Result<Vec<u8>, NoMemory> {
    let scripts = scripts.into_list()?;
    match plan.failing {
        Failing::EachRead => told_each(alloc, plan, &scripts, true),
        Failing::EachWrite => told_each(alloc, plan, &scripts, false),
        _ => told_once(alloc, plan, &scripts),
    }
}

// The scripts run over both kinds of table. What is told of the one is told of the other.
fn told_once(alloc: Global, plan: Plan, scripts: &[Script]) -> Result<Vec<u8>, NoMemory> {
    let mut over_map = Store::new(alloc, MapTable::new(alloc));
    let mut over_blocks = Store::new(alloc, BlockTable::new(alloc));
    let mut told = told_over(alloc, plan, scripts, &mut over_map)?;
    let other = told_over(alloc, plan, scripts, &mut over_blocks)?;
    if told.as_slice() != other.as_slice() {
        told.extend_from_slice(b"over blocks:\n")?;
        told.extend_from_slice(&other)?;
    }
    Ok(told)
}

// The scripts run one after the other over one store, each with a tally of its own, until a run
// isn't done.
fn told_over<B: Sorted<Tally = Tally> + Sync>(
    alloc: Global,
    plan: Plan,
    scripts: &[Script],
    store: &mut Store<B>,
) -> Result<Vec<u8>, NoMemory>
    requires kept { HasState store.old.types (B.rows store.old.table) }
{
    let mut told = Vec::new(alloc);
    for script in scripts {
        let mut tally = Tally::new();
        let ended = run_once(alloc, plan, script, plan.failing, store, &mut tally);
        let _rows = tally.close();
        let ended = ended?;
        tell(alloc, &mut told, &ended)?;
        if ended.status != Status::Done {
            return Ok(told);
        }
    }
    Ok(told)
}

// The first script with one call after the other failing, until a run is done: how each ended, and
// how many lines it had written, over both kinds of table.
fn told_each(
    alloc: Global,
    plan: Plan,
    scripts: &[Script],
    reads: bool,
) -> Result<Vec<u8>, NoMemory> {
    let mut told = Vec::new(alloc);
    let Some(script) = scripts.first() else {
        return Ok(told);
    };
    for call in 0..CALLS {
        let failing = if reads {
            Failing::Read(call)
        } else {
            Failing::Write(call)
        };
        let mut over_map = Store::new(alloc, MapTable::new(alloc));
        let mut over_blocks = Store::new(alloc, BlockTable::new(alloc));
        let one = outcome_of_call(alloc, plan, script, failing, &mut over_map)?;
        let other = outcome_of_call(alloc, plan, script, failing, &mut over_blocks)?;
        told.extend_from_slice(one.line.as_bytes())?;
        if one.line.as_bytes() != other.line.as_bytes() {
            told.extend_from_slice(b"over blocks: ")?;
            told.extend_from_slice(other.line.as_bytes())?;
        }
        if one.is_done && other.is_done {
            return Ok(told);
        }
    }
    Ok(told)
}

// What is told of a run with a call that fails, and whether it was done all the same.
#[derive(Drop)]
struct Outcome {
    line: String,
    is_done: bool,
}

fn outcome_of_call<B: Sorted<Tally = Tally> + Sync>(
    alloc: Global,
    plan: Plan,
    script: &Script,
    failing: Failing,
    store: &mut Store<B>,
) -> Result<Outcome, NoMemory>
    requires kept { HasState store.old.types (B.rows store.old.table) }
{
    let mut tally = Tally::new();
    let ended = run_once(alloc, plan, script, failing, store, &mut tally);
    let _rows = tally.close();
    let ended = ended?;
    let lines = ended.written.iter().filter(|byte| **byte == b'\n').count();
    let bytes = ended.written.len();
    let status = ended.status.number();
    Ok(Outcome {
        line: format!(in alloc; "status {status} lines {lines} bytes {bytes}\n")?,
        is_done: ended.status == Status::Done,
    })
}

// One run over the store. Its rows are those by which the tally rises.
fn run_once<B: Sorted + Sync>(
    alloc: Global,
    plan: Plan,
    script: &Script,
    failing: Failing,
    store: &mut Store<B>,
    tally: &mut B::Tally,
) -> Result<Ended, NoMemory>
    requires kept { HasState store.old.types (B.rows store.old.table) }
    ensures kept { IfOk result (λ ended. ended.status ≡ Status.Done
        → HasState store.new.types (B.rows store.new.table)) }
{
    let bytes = script.bytes.to_vec(alloc)?;
    if plan.is_steady {
        run_steady(alloc, &script.words, bytes, store, tally)
    } else {
        run_in_pieces(
            alloc,
            &script.words,
            bytes,
            plan.piece.max(1),
            failing,
            store,
            tally,
        )
    }
}

// Over a source and a sink that never fail.
fn run_steady<B: Sorted + Sync>(
    alloc: Global,
    words: &[Text],
    script: Vec<u8>,
    store: &mut Store<B>,
    tally: &mut B::Tally,
) -> Result<Ended, NoMemory>
    requires kept { HasState store.old.types (B.rows store.old.table) }
    ensures kept { IfOk result (λ ended. ended.status ≡ Status.Done
        → HasState store.new.types (B.rows store.new.table)) }
{
    let mut source = SteadySource::new(script);
    let mut sink = SteadySink::new(alloc);
    let before = tally.rows();
    let status = run(
        alloc,
        words,
        &mut source,
        &mut sink,
        &mut SteadyFolder,
        &NoGate,
        store,
        tally,
    );
    let written = sink.bytes().to_vec(alloc)?;
    let flushed = written.len();
    Ok(Ended {
        status,
        rows: tally.rows().saturating_sub(before),
        written,
        flushed,
    })
}

// Over a source and a sink that take at most so many bytes at a time, and fail as is said.
fn run_in_pieces<B: Sorted + Sync>(
    alloc: Global,
    words: &[Text],
    script: Vec<u8>,
    piece: usize,
    failing: Failing,
    store: &mut Store<B>,
    tally: &mut B::Tally,
) -> Result<Ended, NoMemory>
    requires piece { 0 < piece }
    requires kept { HasState store.old.types (B.rows store.old.table) }
    ensures kept { IfOk result (λ ended. ended.status ≡ Status.Done
        → HasState store.new.types (B.rows store.new.table)) }
{
    let (reads, writes) = match failing {
        Failing::Read(call) => (one(alloc, call)?, Vec::new(alloc)),
        Failing::Write(call) => (Vec::new(alloc), one(alloc, call)?),
        _ => (Vec::new(alloc), Vec::new(alloc)),
    };
    let mut source = MemorySource::new(script, piece, reads);
    let mut sink = MemorySink::new(alloc, piece, writes);
    let before = tally.rows();
    let status = run(
        alloc,
        words,
        &mut source,
        &mut sink,
        &mut SteadyFolder,
        &NoGate,
        store,
        tally,
    );
    Ok(Ended {
        status,
        rows: tally.rows().saturating_sub(before),
        written: sink.bytes().to_vec(alloc)?,
        flushed: sink.flushed(),
    })
}

fn one(alloc: Global, number: u64) -> Result<Vec<u64>, NoMemory> {
    let mut list = Vec::new(alloc);
    list.push(number)?;
    Ok(list)
}

// Appends what a run wrote, and how it ended.
fn tell(alloc: Global, told: &mut Vec<u8>, ended: &Ended) -> Result<(), NoMemory> {
    told.extend_from_slice(&ended.written)?;
    let status = ended.status.number();
    let rows = ended.rows;
    let line = format!(in alloc; "status {status} rows {rows}")?;
    told.extend_from_slice(line.as_bytes())?;
    if ended.flushed < ended.written.len() {
        told.extend_from_slice(b" unflushed")?;
    }
    told.push(b'\n')?;
    Ok(())
}
