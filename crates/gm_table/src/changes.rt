// Changes of an ordered map, whole or not at all.
ghost use Rattle.std.specs.Prelude.{◌≡◌, ◌≤◌, ℕ, List, None, Some, if◌then◌else◌};
ghost use Rattle.std.specs.Prelude.{length, [], ◌∷◌, OnOk, OnErr, IfOk, IsOk};
ghost use Rattle.gm_table.specs.Sorted.{IsRising, at_key};
ghost use Rattle.gm_table.specs.Batch.{has_key, put_at};
ghost use Rattle.gm_table.specs.Changes.{restored_at, undone_at};

use crate::Row;
use gm_base::{Bytes, NoMemory};
use std::alloc::Global;
use std::collections::BTreeMap;
use std::mem;

/// Puts these rows in, one after the other. Where there is no memory for one, those before it are
/// taken back.
pub(crate) fn put_rows(
    alloc: Global,
    map: &mut BTreeMap<Bytes, Bytes>,
    puts: &[Row],
) -> Result<(), NoMemory>
    requires { IsRising map.old.entries }
    ensures ok { OnOk result ((key : List ℕ)
        → at_key key map.new.entries ≡ put_at key puts.now (at_key key map.old.entries)) }
    ensures err { OnErr result (map.new.entries ≡ map.old.entries) }
    ensures none { puts.now ≡ [] → IsOk result }
    ensures rising { IsRising map.new.entries }
{
    let mut olds = Vec::with_capacity(alloc, puts.len())?;
    for put in puts {
        match put_one(alloc, map, put) {
            Ok(old) => olds.push_reserved(old),
            Err(error) => {
                take_back(map, puts, olds);
                return Err(error);
            }
        }
    }
    Ok(())
}

// Puts a copy of a row in, and answers the bytes that its key had.
fn put_one(
    alloc: Global,
    map: &mut BTreeMap<Bytes, Bytes>,
    put: &Row,
) -> Result<Option<Bytes>, NoMemory>
    requires { IsRising map.old.entries }
    ensures ok { OnOk result ((key : List ℕ)
        → at_key key map.new.entries ≡ put_at key (put.now ∷ []) (at_key key map.old.entries)) }
    ensures had { IfOk result (λ old. old ≡ at_key put.now.key map.old.entries) }
    ensures err { OnErr result (map.new.entries ≡ map.old.entries) }
    ensures rising { IsRising map.new.entries }
{
    let bytes = put.bytes.copy(alloc)?;
    if let Some(place) = map.get_mut(&put.key) {
        return Ok(Some(mem::replace(place, bytes)));
    }
    let key = put.key.copy(alloc)?;
    let old = map.insert(key, bytes)?;
    Ok(old)
}

// Gives the keys of the rows that were put in what they had, the last first.
fn take_back(map: &mut BTreeMap<Bytes, Bytes>, puts: &[Row], mut olds: Vec<Option<Bytes>>)
    requires few { length olds.items ≤ length puts.now }
    requires rising { IsRising map.old.entries }
    ensures undone { (key : List ℕ)
        → at_key key map.new.entries
        ≡ undone_at key puts.now olds.items (at_key key map.old.entries) }
    ensures rising { IsRising map.new.entries }
{
    while let Some(old) = olds.pop() {
        restore(map, &puts[olds.len()].key, old);
    }
}

// Gives a key what it had before a row was put in there.
fn restore(map: &mut BTreeMap<Bytes, Bytes>, key: &Bytes, old: Option<Bytes>)
    requires { IsRising map.old.entries }
    ensures restored { (other : List ℕ)
        → at_key other map.new.entries
        ≡ restored_at other key.now old (at_key other map.old.entries) }
    ensures rising { IsRising map.new.entries }
{
    match old {
        None => {
            map.remove(key);
        }
        Some(bytes) => {
            if let Some(place) = map.get_mut(key) {
                *place = bytes;
            }
        }
    }
}

/// Takes these keys out.
pub(crate) fn remove_keys(map: &mut BTreeMap<Bytes, Bytes>, keys: &[Bytes])
    requires { IsRising map.old.entries }
    ensures removed { (key : List ℕ)
        → at_key key map.new.entries
        ≡ (if has_key key keys.now then None else at_key key map.old.entries) }
    ensures rising { IsRising map.new.entries }
{
    for key in keys {
        map.remove(key);
    }
}
