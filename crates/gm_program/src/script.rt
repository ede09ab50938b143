// The top call.
ghost use Rattle.std.specs.Prelude.{◌≡◌, ◌≢◌, ◌≤◌, ◌<◌, ◌+◌, ◌^◌, ◌↔◌, ◌⊎◌, ℕ, List, []};
ghost use Rattle.std.specs.Prelude.{Some, None, length, OnOk, OnErr, IfOk, IfErr, IsErrOf};
ghost use Rattle.std.specs.Option.{ForSome};
ghost use Rattle.gm_outside.specs.Failed.{Rose};
ghost use Rattle.gm_program.specs.Generator.{loading};
ghost use Rattle.gm_program.specs.Lines.{cut, last_line, lines_of};
ghost use Rattle.gm_program.specs.Machine.{Machine, replies};
ghost use Rattle.gm_program.specs.Script.{Ends, Finishes, Loads, RepliesToTaken, CanBeRead};
ghost use Rattle.gm_program.specs.Script.{NeedNoSource, made_output, setting_of, whole_output};
ghost use Rattle.gm_engine_rows.specs.State.{State};
ghost use Rattle.gm_program.specs.Store.{Holds, HasState};
ghost use Rattle.gm_program.specs.Serve.{moment, Keeps, HasMachine, Serves, Closes, closing};
ghost use Rattle.gm_program.specs.Serve.{WritesPart, Streams, Breaks, Stopped, HasCause};
ghost use Rattle.gm_program.specs.Words.{options_of};

use crate::options::{Made, WordsFault};
use crate::pending::Pending;
use crate::quiet::serve_quietly;
use crate::serve::{serve_end, serve_line, serve_piece};
use crate::setting::{PLAIN, Setting};
use crate::stop::{Stop, status_of, status_of_made};
use crate::store::Store;
use crate::words::read_words;
use crate::{Status, generator};
use gm_base::{NoMemory, Text};
use gm_outside::{Failed, Folder, Gate, Sink, SinkRefusal, Source};
use gm_table::Sorted;
use std::alloc::Global;

/// A run takes no more bytes of a script than this.
const SCRIPT_LIMIT: usize = 1 << 40;

/// The bytes that are read at a time.
const PIECE: usize = 1 << 16;

/// Serves a script to the sink over the store, from whatever state it keeps. The words are those
/// after the program's name. Without words the script is the source's. After
/// `--generate SEED:COUNT` it is the one that `generated` gives, of which the replies to its create
/// and put lines are not written, and the source is not read. Any other words are `Usage`.
///
/// With the status `Done` the bytes written are the replies of a machine that keeps a plain map of
/// features. After another status the tally and the store are not spoken of.
pub fn run<S: Source, K: Sink, F: Folder, G: Gate + Sync, B: Sorted + Sync>(
    alloc: Global,
    words: &[Text],
    source: &mut S,
    sink: &mut K,
    folder: &mut F,
    gate: &G,
    store: &mut Store<B>,
    tally: &mut B::Tally,
) -> Status
    requires kept { HasState store.old.types (B.rows store.old.table) }

    // The headline.
    ensures done { result ≡ Status.Done → (s : State)
        → Holds s store.old.types (B.rows store.old.table)
        → ForSome (options_of words.now) (λ options.
        Ends options.generate (setting_of words.now) s (S.left source.old)
        (S.left source.new) store.new.types (B.rows store.new.table) (B.Tally.number tally.old)
        (B.Tally.number tally.new)
        (K.written sink.old) (K.written sink.new) (K.flushed sink.new)) }

    // The store has a state again, so that a further run may take it up.
    ensures kept { result ≡ Status.Done → HasState store.new.types (B.rows store.new.table) }

    // With any status what was written is a front of the output.
    ensures prefix { (s : State) → Holds s store.old.types (B.rows store.old.table)
        → ForSome (options_of words.now) (λ options.
        ForSome (whole_output options.generate (setting_of words.now) s (S.left source.old))
        (λ bytes. WritesPart bytes (K.written sink.old) (K.written sink.new))) }

    // With ReadFault it is the replies to the lines that were taken whole.
    ensures read { result ≡ Status.ReadFault → (s : State)
        → Holds s store.old.types (B.rows store.old.table) → ForSome (S.left source.old) (λ script.
        RepliesToTaken (setting_of words.now) s script (S.left source.new) (K.written sink.old)
        (K.written sink.new)) }

    // Faulty words are Usage; only want of memory may come in its place.
    ensures usage { result ≡ Status.Usage → options_of words.now ≡ None }
    ensures faulty { options_of words.now ≡ None
        → (result ≡ Status.Usage) ⊎ (result ≡ Status.NoMemory) }
    ensures untouched_sink { options_of words.now ≡ None → sink.new ≡ sink.old }
    ensures untouched_folder { folder.new ≡ folder.old }

    // Where no script of the source is asked for, it is not read, whatever the status.
    ensures untouched_source { NeedNoSource (options_of words.now) → source.new ≡ source.old }
    ensures unread { NeedNoSource (options_of words.now)
        → (result ≢ Status.ReadFault) × (result ≢ Status.TooLong) }

    // The causes.
    ensures read_fault { result ≡ Status.ReadFault
        → Rose (S.faults source.old) (S.faults source.new) }
    ensures write_fault { result ≡ Status.WriteFault
        → Rose (K.faults sink.old) (K.faults sink.new) }
    ensures no_folder_fault { result ≢ Status.FolderFault }
    ensures not_damaged { result ≢ Status.Damaged }
    ensures too_long { ForSome (S.left source.old) (λ script. ForSome (S.left source.new) (λ rest.
        (result ≡ Status.TooLong) ↔ (length script ≡ length rest + 2 ^ 40))) }

    // Whatever the status, no more than 2^40 bytes are taken.
    ensures most { ForSome (S.left source.old)
        (λ script. ForSome (S.left source.new) (λ rest. length script ≤ length rest + 2 ^ 40)) }

    // Where nothing of the outside fails it gives up for want of memory alone.
    ensures complete { ForSome (options_of words.now) (λ options.
        CanBeRead options.generate (S.left source.old) (S.faults source.old) (S.faults source.new)
        → (Rose (K.faults sink.old) (K.faults sink.new) → ⊥)
        → (result ≡ Status.Done) ⊎ (result ≡ Status.NoMemory)) }
{
    // These two reads serve only the proof.
    let _folder = folder;
    let _gate = gate;
    let options = match read_words(alloc, words) {
        Ok(options) => options,
        Err(WordsFault::Usage) => return Status::Usage,
        Err(WordsFault::NoMemory) => return Status::NoMemory,
    };
    if let Some(made) = options.generate {
        return status_of_made(serve_made(alloc, PLAIN, made, sink, store, tally));
    }
    status_of(serve_all(alloc, PLAIN, source, sink, store, tally))
}

// Serves the whole script.
fn serve_all<S: Source, K: Sink, B: Sorted>(
    alloc: Global,
    setting: Setting,
    source: &mut S,
    sink: &mut K,
    store: &mut Store<B>,
    tally: &mut B::Tally,
) -> Result<(), Stop>
    requires kept { HasState store.old.types (B.rows store.old.table) }
    ensures done { OnOk result ((s : State) → Holds s store.old.types (B.rows store.old.table)
        → ForSome (S.left source.old) (λ script. (length script < 2 ^ 40)
        × Finishes setting s script (S.left source.new) store.new.types (B.rows store.new.table)
        (B.Tally.number tally.old) (B.Tally.number tally.new) (K.written sink.old)
        (K.written sink.new) (K.flushed sink.new))) }
    ensures kept { OnOk result (HasState store.new.types (B.rows store.new.table)) }
    ensures stopped { IfErr result (λ stop. (s : State)
        → Holds s store.old.types (B.rows store.old.table) → ForSome (S.left source.old) (λ script.
        Stopped setting s stop script (S.left source.new) (K.written sink.old)
        (K.written sink.new))) }
    ensures cause { HasCause result (S.faults source.old) (S.faults source.new) (K.faults sink.old)
        (K.faults sink.new) }
{
    let Ok(mut piece) = vec![in alloc; 0u8; PIECE] else {
        return Err(Stop::NoMemory);
    };
    let mut held = Vec::new(alloc);
    let mut pending = Pending::Nothing;
    serve_pieces(
        alloc,
        setting,
        &mut piece,
        &mut held,
        source,
        sink,
        store,
        &mut pending,
        tally,
    )?;
    serve_last(alloc, setting, &held, sink, store, &mut pending, tally)?;
    if let Err(Failed) = sink.flush() {
        return Err(Stop::WriteFault);
    }
    Ok(())
}

// Takes the whole script in pieces, and serves the lines that end in it.
fn serve_pieces<S: Source, K: Sink, B: Sorted>(
    alloc: Global,
    setting: Setting,
    piece: &mut [u8],
    held: &mut Vec<u8>,
    source: &mut S,
    sink: &mut K,
    store: &mut Store<B>,
    pending: &mut Pending,
    tally: &mut B::Tally,
) -> Result<(), Stop>
    requires room { 0 < length piece.old }
    requires none { held.old.items ≡ [] }
    requires kept { HasMachine store.old.types (B.rows store.old.table) pending.old }
    ensures streams { OnOk result ((n : ℕ) × (n < 2 ^ 40)
        × Streams setting [] held.new.items (S.left source.old) (S.left source.new)
        (moment store.old.types (B.rows store.old.table) pending.old (B.Tally.number tally.old)
        (K.written sink.old))
        (moment store.new.types (B.rows store.new.table) pending.new (B.Tally.number tally.new)
        (K.written sink.new)) n) }
    ensures end { OnOk result (ForSome (S.left source.old) (λ _. S.left source.new ≡ Some [])) }
    ensures breaks { IfErr result
        (λ stop. Breaks setting stop (2 ^ 40) [] (S.left source.old) (S.left source.new)
        (moment store.old.types (B.rows store.old.table) pending.old (B.Tally.number tally.old)
        (K.written sink.old)) (K.written sink.new)) }
    ensures cause { HasCause result (S.faults source.old) (S.faults source.new) (K.faults sink.old)
        (K.faults sink.new) }
{
    let mut budget = SCRIPT_LIMIT;
    'pieces: loop {
        match serve_next(
            alloc, setting, budget, piece, held, source, sink, store, pending, tally,
        ) {
            Err(stop) => return Err(stop),
            Ok(0) => return Ok(()),
            Ok(n) => budget -= n,
        }
    }
}

// Takes a piece of the script, of fewer bytes than the budget, and serves the lines that end in it.
fn serve_next<S: Source, K: Sink, B: Sorted>(
    alloc: Global,
    setting: Setting,
    budget: usize,
    piece: &mut [u8],
    held: &mut Vec<u8>,
    source: &mut S,
    sink: &mut K,
    store: &mut Store<B>,
    pending: &mut Pending,
    tally: &mut B::Tally,
) -> Result<usize, Stop>
    requires budget { 0 < budget }
    requires room { 0 < length piece.old }
    requires kept { HasMachine store.old.types (B.rows store.old.table) pending.old }
    ensures streams { IfOk result (λ n. (start : List ℕ) → held.old.items ≡ cut start
        → Streams setting start held.new.items (S.left source.old) (S.left source.new)
        (moment store.old.types (B.rows store.old.table) pending.old (B.Tally.number tally.old)
        (K.written sink.old))
        (moment store.new.types (B.rows store.new.table) pending.new (B.Tally.number tally.new)
        (K.written sink.new)) n) }
    ensures below { IfOk result (λ n. n < budget) }
    ensures end { IfOk result (λ n. n ≡ 0
        → ForSome (S.left source.old) (λ _. S.left source.new ≡ Some [])) }
    ensures breaks { IfErr result (λ stop. (start : List ℕ) → held.old.items ≡ cut start
        → Breaks setting stop budget start (S.left source.old) (S.left source.new)
        (moment store.old.types (B.rows store.old.table) pending.old (B.Tally.number tally.old)
        (K.written sink.old)) (K.written sink.new)) }
    ensures cause { HasCause result (S.faults source.old) (S.faults source.new) (K.faults sink.old)
        (K.faults sink.new) }
{
    let room = piece.len().min(budget);
    let part = &mut piece[..room];
    let Ok(n) = source.read(part) else {
        return Err(Stop::ReadFault);
    };
    if n == budget {
        return Err(Stop::TooLong);
    }
    serve_piece(
        alloc,
        setting,
        &part[..n],
        held,
        sink,
        store,
        pending,
        tally,
    )?;
    Ok(n)
}

// Serves a made script: what stores without a word, and then what asks.
fn serve_made<K: Sink, B: Sorted>(
    alloc: Global,
    setting: Setting,
    made: Made,
    sink: &mut K,
    store: &mut Store<B>,
    tally: &mut B::Tally,
) -> Result<(), SinkRefusal>
    requires kept { HasState store.old.types (B.rows store.old.table) }
    ensures done { OnOk result ((s : State) → Holds s store.old.types (B.rows store.old.table) →
        Loads setting s made store.new.types (B.rows store.new.table) (B.Tally.number tally.old)
        (B.Tally.number tally.new) (K.written sink.old) (K.written sink.new) (K.flushed sink.new)) }
    ensures kept { OnOk result (HasState store.new.types (B.rows store.new.table)) }
    ensures part { OnErr result ((s : State) → Holds s store.old.types (B.rows store.old.table) →
        WritesPart (made_output setting s made) (K.written sink.old) (K.written sink.new)) }
    ensures cause { IsErrOf result SinkRefusal.Failed
        → Rose (K.faults sink.old) (K.faults sink.new) }
{
    let mut pending = Pending::Nothing;
    let Made { seed, count } = made;
    if let Err(NoMemory) = load(alloc, setting, seed, count, store, &mut pending, tally) {
        return Err(SinkRefusal::NoMemory);
    }
    let Ok(script) = generator::counting(alloc) else {
        return Err(SinkRefusal::NoMemory);
    };
    let bytes = script.as_bytes();
    serve_whole(alloc, setting, bytes, sink, store, &mut pending, tally)?;
    if let Err(Failed) = sink.flush() {
        return Err(SinkRefusal::Failed);
    }
    Ok(())
}

// Serves the part of a made script that stores, and writes nothing.
fn load<B: Sorted>(
    alloc: Global,
    setting: Setting,
    seed: u64,
    count: u32,
    store: &mut Store<B>,
    pending: &mut Pending,
    tally: &mut B::Tally,
) -> Result<(), NoMemory>
    requires kept { HasMachine store.old.types (B.rows store.old.table) pending.old }
    ensures serves { OnOk result ((m : Machine)
        → Keeps m store.old.types (B.rows store.old.table) pending.old →
        Serves setting m (lines_of (loading seed count))
        (moment store.old.types (B.rows store.old.table) pending.old
        (B.Tally.number tally.old) None)
        (moment store.new.types (B.rows store.new.table) pending.new
        (B.Tally.number tally.new) None)) }
    ensures kept { OnOk result (HasMachine store.new.types (B.rows store.new.table) pending.new) }
{
    match generator::loading(alloc, seed, count) {
        Ok(script) => serve_quietly(alloc, setting, script.as_bytes(), store, pending, tally),
        Err(NoMemory) => Err(NoMemory),
    }
}

// Serves a script that is at hand, to its end.
fn serve_whole<K: Sink, B: Sorted>(
    alloc: Global,
    setting: Setting,
    script: &[u8],
    sink: &mut K,
    store: &mut Store<B>,
    pending: &mut Pending,
    tally: &mut B::Tally,
) -> Result<(), SinkRefusal>
    requires kept { HasMachine store.old.types (B.rows store.old.table) pending.old }
    ensures ok { OnOk result ((m : Machine)
        → Keeps m store.old.types (B.rows store.old.table) pending.old →
        Closes setting m (lines_of script.now)
        (moment store.old.types (B.rows store.old.table) pending.old (B.Tally.number tally.old)
        (K.written sink.old))
        (moment store.new.types (B.rows store.new.table) pending.new (B.Tally.number tally.new)
        (K.written sink.new))) }
    ensures err { OnErr result ((m : Machine)
        → Keeps m store.old.types (B.rows store.old.table) pending.old →
        WritesPart (closing setting m (lines_of script.now)) (K.written sink.old)
        (K.written sink.new)) }
    ensures kept { OnOk result (HasMachine store.new.types (B.rows store.new.table) pending.new) }
    ensures cause { IsErrOf result SinkRefusal.Failed
        → Rose (K.faults sink.old) (K.faults sink.new) }
    ensures later { K.faults sink.old ≤ K.faults sink.new }
{
    let mut held = Vec::new(alloc);
    serve_piece(
        alloc, setting, script, &mut held, sink, store, pending, tally,
    )?;
    serve_last(alloc, setting, &held, sink, store, pending, tally)
}

// Serves what comes after the last line end, and the end.
fn serve_last<K: Sink, B: Sorted>(
    alloc: Global,
    setting: Setting,
    held: &[u8],
    sink: &mut K,
    store: &mut Store<B>,
    pending: &mut Pending,
    tally: &mut B::Tally,
) -> Result<(), SinkRefusal>
    requires kept { HasMachine store.old.types (B.rows store.old.table) pending.old }
    ensures ok { OnOk result ((start : List ℕ) (m : Machine) → held.now ≡ cut start
        → Keeps m store.old.types (B.rows store.old.table) pending.old →
        Closes setting m (last_line start)
        (moment store.old.types (B.rows store.old.table) pending.old (B.Tally.number tally.old)
        (K.written sink.old))
        (moment store.new.types (B.rows store.new.table) pending.new (B.Tally.number tally.new)
        (K.written sink.new))) }
    ensures err { OnErr result ((start : List ℕ) (m : Machine) → held.now ≡ cut start
        → Keeps m store.old.types (B.rows store.old.table) pending.old →
        WritesPart (closing setting m (last_line start)) (K.written sink.old)
        (K.written sink.new)) }
    ensures kept { OnOk result (HasMachine store.new.types (B.rows store.new.table) pending.new) }
    ensures cause { IsErrOf result SinkRefusal.Failed
        → Rose (K.faults sink.old) (K.faults sink.new) }
    ensures later { K.faults sink.old ≤ K.faults sink.new }
{
    serve_rest(alloc, setting, held, sink, store, pending, tally)?;
    serve_end(alloc, setting, sink, store, pending, tally)
}

// Serves what comes after the last line end, if anything does.
fn serve_rest<K: Sink, B: Sorted>(
    alloc: Global,
    setting: Setting,
    held: &[u8],
    sink: &mut K,
    store: &mut Store<B>,
    pending: &mut Pending,
    tally: &mut B::Tally,
) -> Result<(), SinkRefusal>
    requires kept { HasMachine store.old.types (B.rows store.old.table) pending.old }
    ensures ok { OnOk result ((start : List ℕ) (m : Machine) → held.now ≡ cut start
        → Keeps m store.old.types (B.rows store.old.table) pending.old →
        Serves setting m (last_line start)
        (moment store.old.types (B.rows store.old.table) pending.old (B.Tally.number tally.old)
        (K.written sink.old))
        (moment store.new.types (B.rows store.new.table) pending.new (B.Tally.number tally.new)
        (K.written sink.new))) }
    ensures err { OnErr result ((start : List ℕ) (m : Machine) → held.now ≡ cut start
        → Keeps m store.old.types (B.rows store.old.table) pending.old →
        WritesPart (replies setting m (last_line start)) (K.written sink.old)
        (K.written sink.new)) }
    ensures kept { OnOk result (HasMachine store.new.types (B.rows store.new.table) pending.new) }
    ensures cause { IsErrOf result SinkRefusal.Failed
        → Rose (K.faults sink.old) (K.faults sink.new) }
    ensures later { K.faults sink.old ≤ K.faults sink.new }
{
    if held.is_empty() {
        return Ok(());
    }
    serve_line(alloc, setting, held, sink, store, pending, tally)
}
