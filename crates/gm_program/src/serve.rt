// Lines served one after the other.
ghost use Rattle.std.specs.Prelude.{◌≡◌, ◌≤◌, ◌++◌, [], ◌∷◌, ℕ, List, Some, None};
ghost use Rattle.std.specs.Prelude.{OnOk, OnErr, IfOk, IsErrOf, length};
ghost use Rattle.gm_outside.specs.Failed.{Rose};
ghost use Rattle.gm_program.specs.Machine.{Machine, line_turn, end_turn, said, replies, outcome_of};
ghost use Rattle.gm_engine_rows.specs.State.{State};
ghost use Rattle.gm_program.specs.Store.{HasState, Holds};
ghost use Rattle.gm_script.specs.Reading.{reading};
ghost use Rattle.gm_program.specs.Lines.{complete_from, partial_from, cut};
ghost use Rattle.gm_program.specs.Serve.{moment, Keeps, HasMachine, Executes, Takes};
ghost use Rattle.gm_program.specs.Serve.{Writes, WritesPart, Goes, Serves};

use crate::execute::execute;
use crate::pending::Pending;
use crate::setting::Setting;
use crate::store::Store;
use gm_base::NoMemory;
use gm_outside::{Sink, SinkRefusal};
use gm_script::{LINE_LIMIT, LineFault, Reply, print_reply, read_line};
use gm_table::Sorted;
use memchr::memchr;
use std::alloc::Global;

/// As many bytes of a line as show whether it is too long.
const HELD_LIMIT: usize = LINE_LIMIT + 1;

/// Writes all of these bytes, as one piece as far as the sink takes it so.
fn write_all<K: Sink>(alloc: Global, sink: &mut K, bytes: &[u8]) -> Result<(), SinkRefusal>
    ensures ok { OnOk result (Writes bytes.now (K.written sink.old) (K.written sink.new)) }
    ensures err { OnErr result (WritesPart bytes.now (K.written sink.old) (K.written sink.new)) }
    ensures cause { IsErrOf result SinkRefusal.Failed
        → Rose (K.faults sink.old) (K.faults sink.new) }
    ensures later { K.faults sink.old ≤ K.faults sink.new }
{
    let mut at = 0;
    while at < bytes.len() {
        at += sink.write(alloc, &bytes[at..])?;
    }
    Ok(())
}

// Writes a reply, where there is one.
fn say<K: Sink>(alloc: Global, reply: Option<Reply>, sink: &mut K) -> Result<(), SinkRefusal>
    ensures ok { OnOk result (Writes (said reply) (K.written sink.old) (K.written sink.new)) }
    ensures err { OnErr result (WritesPart (said reply) (K.written sink.old) (K.written sink.new)) }
    ensures cause { IsErrOf result SinkRefusal.Failed
        → Rose (K.faults sink.old) (K.faults sink.new) }
    ensures later { K.faults sink.old ≤ K.faults sink.new }
{
    let Some(reply) = reply else {
        return Ok(());
    };
    match print_reply(alloc, &reply) {
        Ok(bytes) => write_all(alloc, sink, bytes.as_slice()),
        Err(NoMemory) => Err(SinkRefusal::NoMemory),
    }
}

/// Takes the turn of a line, and writes its reply.
pub(crate) fn serve_line<K: Sink, B: Sorted>(
    alloc: Global,
    setting: Setting,
    line: &[u8],
    sink: &mut K,
    store: &mut Store<B>,
    pending: &mut Pending,
    tally: &mut B::Tally,
) -> Result<(), SinkRefusal>
    requires kept { HasMachine store.old.types (B.rows store.old.table) pending.old }
    ensures ok { OnOk result ((m : Machine)
        → Keeps m store.old.types (B.rows store.old.table) pending.old
        → Serves setting m (line.now ∷ [])
        (moment store.old.types (B.rows store.old.table) pending.old (B.Tally.number tally.old)
        (K.written sink.old))
        (moment store.new.types (B.rows store.new.table) pending.new (B.Tally.number tally.new)
        (K.written sink.new))) }
    ensures err { OnErr result ((m : Machine)
        → Keeps m store.old.types (B.rows store.old.table) pending.old →
        WritesPart (replies setting m (line.now ∷ [])) (K.written sink.old) (K.written sink.new)) }
    ensures kept { OnOk result (HasMachine store.new.types (B.rows store.new.table) pending.new) }
    ensures cause { IsErrOf result SinkRefusal.Failed
        → Rose (K.faults sink.old) (K.faults sink.new) }
    ensures later { K.faults sink.old ≤ K.faults sink.new }
{
    match take_line(alloc, setting, line, store, pending, tally) {
        Ok(reply) => say(alloc, reply, sink),
        Err(NoMemory) => Err(SinkRefusal::NoMemory),
    }
}

/// Takes the turn of the end, and writes what it says.
pub(crate) fn serve_end<K: Sink, B: Sorted>(
    alloc: Global,
    setting: Setting,
    sink: &mut K,
    store: &mut Store<B>,
    pending: &mut Pending,
    tally: &mut B::Tally,
) -> Result<(), SinkRefusal>
    requires kept { HasMachine store.old.types (B.rows store.old.table) pending.old }
    ensures ok { OnOk result ((m : Machine)
        → Keeps m store.old.types (B.rows store.old.table) pending.old →
        Goes (end_turn setting m).machine (said (end_turn setting m).reply)
        (end_turn setting m).examined
        (moment store.old.types (B.rows store.old.table) pending.old (B.Tally.number tally.old)
        (K.written sink.old))
        (moment store.new.types (B.rows store.new.table) pending.new (B.Tally.number tally.new)
        (K.written sink.new))) }
    ensures err { OnErr result ((m : Machine)
        → Keeps m store.old.types (B.rows store.old.table) pending.old →
        WritesPart (said (end_turn setting m).reply) (K.written sink.old) (K.written sink.new)) }
    ensures kept { OnOk result (HasMachine store.new.types (B.rows store.new.table) pending.new) }
    ensures cause { IsErrOf result SinkRefusal.Failed
        → Rose (K.faults sink.old) (K.faults sink.new) }
    ensures later { K.faults sink.old ≤ K.faults sink.new }
{
    match take_end(setting, store, pending, tally) {
        Ok(reply) => say(alloc, reply, sink),
        Err(NoMemory) => Err(SinkRefusal::NoMemory),
    }
}

// What a line makes of the store and of what is pending.
fn take_line<B: Sorted>(
    alloc: Global,
    setting: Setting,
    line: &[u8],
    store: &mut Store<B>,
    pending: &mut Pending,
    tally: &mut B::Tally,
) -> Result<Option<Reply>, NoMemory>
    requires kept { HasMachine store.old.types (B.rows store.old.table) pending.old }
    ensures { (m : Machine) → Keeps m store.old.types (B.rows store.old.table) pending.old
        → IfOk result (λ reply.
        Takes (line_turn setting m line.now) reply store.new.types
        (B.rows store.new.table) pending.new (B.Tally.number tally.old)
        (B.Tally.number tally.new)) }
{
    match *pending {
        Pending::Nothing => reply_to(alloc, setting, line, store, tally),
    }
}

// What the end of the script makes of them.
fn take_end<B: Sorted>(
    _setting: Setting,
    _store: &mut Store<B>,
    pending: &mut Pending,
    _tally: &mut B::Tally,
) -> Result<Option<Reply>, NoMemory>
    ensures { (m : Machine) → Keeps m _store.old.types (B.rows _store.old.table) pending.old
        → IfOk result (λ reply.
        Takes (end_turn _setting m) reply _store.new.types (B.rows _store.new.table) pending.new
        (B.Tally.number _tally.old) (B.Tally.number _tally.new)) }
{
    match *pending {
        Pending::Nothing => Ok(None),
    }
}

// What is replied to a line where nothing is pending.
fn reply_to<B: Sorted>(
    alloc: Global,
    setting: Setting,
    line: &[u8],
    store: &mut Store<B>,
    tally: &mut B::Tally,
) -> Result<Option<Reply>, NoMemory>
    requires kept { HasState store.old.types (B.rows store.old.table) }
    ensures { (s : State) → Holds s store.old.types (B.rows store.old.table) → IfOk result (λ reply.
        Executes (outcome_of setting s (reading store.old.types line.now)) reply store.new.types
        (B.rows store.new.table) (B.Tally.number tally.old) (B.Tally.number tally.new)) }
{
    match read_line(alloc, &store.types, line) {
        Ok(command) => execute(alloc, setting, command, store, tally),
        Err(LineFault::Refused(code, _lines)) => Ok(Some(Reply::Refusal { code, row: None })),
        Err(LineFault::NoMemory) => Err(NoMemory),
    }
}

/// Serves the lines that end in a piece of the script, and holds what comes after them.
pub(crate) fn serve_piece<K: Sink, B: Sorted>(
    alloc: Global,
    setting: Setting,
    piece: &[u8],
    held: &mut Vec<u8>,
    sink: &mut K,
    store: &mut Store<B>,
    pending: &mut Pending,
    tally: &mut B::Tally,
) -> Result<(), SinkRefusal>
    requires kept { HasMachine store.old.types (B.rows store.old.table) pending.old }
    ensures ok { OnOk result ((start : List ℕ) (m : Machine) → held.old.items ≡ cut start
        → Keeps m store.old.types (B.rows store.old.table) pending.old →
        Serves setting m (complete_from start piece.now)
        (moment store.old.types (B.rows store.old.table) pending.old (B.Tally.number tally.old)
        (K.written sink.old))
        (moment store.new.types (B.rows store.new.table) pending.new (B.Tally.number tally.new)
        (K.written sink.new))) }
    ensures held { OnOk result ((start : List ℕ) → held.old.items ≡ cut start
        → held.new.items ≡ cut (partial_from start piece.now)) }
    ensures err { OnErr result ((start : List ℕ) (m : Machine) → held.old.items ≡ cut start
        → Keeps m store.old.types (B.rows store.old.table) pending.old →
        WritesPart (replies setting m (complete_from start piece.now)) (K.written sink.old)
        (K.written sink.new)) }
    ensures kept { OnOk result (HasMachine store.new.types (B.rows store.new.table) pending.new) }
    ensures cause { IsErrOf result SinkRefusal.Failed
        → Rose (K.faults sink.old) (K.faults sink.new) }
    ensures later { K.faults sink.old ≤ K.faults sink.new }
{
    let mut at = 0;
    while let Some(length) = memchr(b'\n', &piece[at..]) {
        let part = &piece[at..at + length];
        serve_ended(alloc, setting, part, held, sink, store, pending, tally)?;
        at += length + 1;
    }
    if let Err(NoMemory) = hold(held, &piece[at..]) {
        return Err(SinkRefusal::NoMemory);
    }
    Ok(())
}

// Serves the line that ends behind this part of it; before it comes what is held.
fn serve_ended<K: Sink, B: Sorted>(
    alloc: Global,
    setting: Setting,
    part: &[u8],
    held: &mut Vec<u8>,
    sink: &mut K,
    store: &mut Store<B>,
    pending: &mut Pending,
    tally: &mut B::Tally,
) -> Result<(), SinkRefusal>
    requires kept { HasMachine store.old.types (B.rows store.old.table) pending.old }
    ensures ok { OnOk result ((start : List ℕ) (m : Machine) → held.old.items ≡ cut start
        → Keeps m store.old.types (B.rows store.old.table) pending.old →
        Serves setting m ((start ++ part.now) ∷ [])
        (moment store.old.types (B.rows store.old.table) pending.old (B.Tally.number tally.old)
        (K.written sink.old))
        (moment store.new.types (B.rows store.new.table) pending.new (B.Tally.number tally.new)
        (K.written sink.new))) }
    ensures held { OnOk result (held.new.items ≡ []) }
    ensures err { OnErr result ((start : List ℕ) (m : Machine) → held.old.items ≡ cut start
        → Keeps m store.old.types (B.rows store.old.table) pending.old →
        WritesPart (replies setting m ((start ++ part.now) ∷ [])) (K.written sink.old)
        (K.written sink.new)) }
    ensures kept { OnOk result (HasMachine store.new.types (B.rows store.new.table) pending.new) }
    ensures cause { IsErrOf result SinkRefusal.Failed
        → Rose (K.faults sink.old) (K.faults sink.new) }
    ensures later { K.faults sink.old ≤ K.faults sink.new }
{
    if held.is_empty() {
        let line = &part[..part.len().min(HELD_LIMIT)];
        return serve_line(alloc, setting, line, sink, store, pending, tally);
    }
    if let Err(NoMemory) = hold(held, part) {
        return Err(SinkRefusal::NoMemory);
    }
    serve_line(alloc, setting, held, sink, store, pending, tally)?;
    held.clear();
    Ok(())
}

// Holds a further part of a line, as far as it shows whether the line is too long.
fn hold(held: &mut Vec<u8>, part: &[u8]) -> Result<(), NoMemory>
    ensures { OnOk result ((start : List ℕ) → held.old.items ≡ cut start
        → held.new.items ≡ cut (start ++ part.now)) }
{
    let room = HELD_LIMIT.saturating_sub(held.len());
    match held.extend_from_slice(&part[..part.len().min(room)]) {
        Ok(()) => Ok(()),
        Err(_) => Err(NoMemory),
    }
}
