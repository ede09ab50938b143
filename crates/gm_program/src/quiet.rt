// Lines whose replies are left out.
ghost use Rattle.std.specs.Prelude.{◌≡◌, ◌<◌, [], None, length, IfOk, OnOk, IsOk, IsErrOf};
ghost use Rattle.gm_outside.specs.Sink.{within_none};
ghost use Rattle.gm_program.specs.Lines.{complete_from};
ghost use Rattle.gm_program.specs.Machine.{Machine};
ghost use Rattle.gm_program.specs.Serve.{moment, Keeps, HasMachine, Serves};

use crate::pending::Pending;
use crate::serve::serve_piece;
use crate::setting::Setting;
use crate::store::Store;
use gm_base::NoMemory;
use gm_outside::{Failed, Sink, SinkRefusal};
use gm_table::Sorted;
use std::alloc::Global;

// Takes everything and keeps nothing.
#[derive(Clone, Copy, Debug)]
struct Quiet;

impl Sink for Quiet {
    ghost written = { λ _. None };

    ghost flushed = { λ _. 0 };

    ghost faults = { λ _. 0 };

    ghost within = { λ _. within_none 0 };

    fn write(&mut self, _alloc: Global, from: &[u8]) -> Result<usize, SinkRefusal>
        requires { 0 < length from.now }
        ensures all { IfOk result (λ n. n ≡ length from.now) }
        ensures never { IsErrOf result SinkRefusal.Failed → ⊥ }
    {
        Ok(from.len())
    }

    fn flush(&mut self) -> Result<(), Failed>
        ensures ok { IsOk result }
    {
        Ok(())
    }
}

/// Serves the lines that end in these bytes, and writes no reply to them. What comes after the last
/// line end is left out.
pub(crate) fn serve_quietly<B: Sorted>(
    alloc: Global,
    setting: Setting,
    bytes: &[u8],
    store: &mut Store<B>,
    pending: &mut Pending,
    tally: &mut B::Tally,
) -> Result<(), NoMemory>
    requires kept { HasMachine store.old.types (B.rows store.old.table) pending.old }
    ensures serves { OnOk result ((m : Machine)
        → Keeps m store.old.types (B.rows store.old.table) pending.old →
        Serves setting m (complete_from [] bytes.now)
        (moment store.old.types (B.rows store.old.table) pending.old
        (B.Tally.number tally.old) None)
        (moment store.new.types (B.rows store.new.table) pending.new
        (B.Tally.number tally.new) None)) }
    ensures kept { OnOk result (HasMachine store.new.types (B.rows store.new.table) pending.new) }
{
    let mut held = Vec::new(alloc);
    match serve_piece(
        alloc, setting, bytes, &mut held, &mut Quiet, store, pending, tally,
    ) {
        Ok(()) => Ok(()),
        Err(_refusal) => Err(NoMemory),
    }
}
