// A place in an ordered map, which moves along it.
ghost use Rattle.std.specs.Prelude.{◌≡◌, ℕ, All, OnOk, IfOk, IfErr, length, true, false};
ghost use Rattle.std.specs.Ordering.{nat_cmp, is_le};
ghost use Rattle.std.specs.Cmp.Lexicographic.{slice_cmp};
ghost use Rattle.gm_base.specs.Counter.{capped_sum};
ghost use Rattle.gm_base.specs.Tally.{tally_number};
ghost use Rattle.gm_table.specs.Sorted.{IsRising, Rows, between};
ghost use Rattle.gm_table.specs.Cursor.{pending, rows_from, rows_below, rows_after};
ghost use Rattle.gm_table.specs.Cursor.{IsAt, IsClear, IsLastOf};
ghost use Rattle.gm_table.specs.Visit.{Handed, Stops};

use crate::Visit;
use crate::end::End;
use gm_base::{Bytes, NoMemory, Tally};
use std::alloc::Global;
use std::collections::BTreeMap;
use std::collections::btree_map::Range;

// How many rows are stepped over before a way down the map costs less.
const STEPS: u32 = 4;

// How many rows are compared with the high end of a span before the end is searched for.
const FEW: u32 = 16;

/// The rows of a map from a key on: the first of them, where there is one, and the rest.
#[derive(Drop)]
pub(crate) struct Cursor<'a> {
    from: &'a [u8],
    place: Option<(&'a Bytes, &'a Bytes)>,
    rest: Range<'a, Bytes, Bytes>,
}

impl<'a> Cursor<'a> {
    /// The rows from this key on.
    pub(crate) fn at(map: &'a BTreeMap<Bytes, Bytes>, low: &'a [u8], room: &mut Bytes) -> Cursor<'a>
        requires { IsRising map.now.entries }
        ensures at { IsAt result map.now.entries }
        ensures from { result.from.now ≡ low.now }
    {
        let mut rest = way_down(map, low, room);
        let place = first_from(&mut rest, low);
        Cursor {
            from: low,
            place,
            rest,
        }
    }

    /// Hands out the rows between two keys, from where the cursor is if they may lie there.
    pub(crate) fn scan<V: Visit>(
        &mut self,
        map: &'a BTreeMap<Bytes, Bytes>,
        alloc: Global,
        low: &'a [u8],
        high: &'a [u8],
        room: &mut Bytes,
        visit: &mut V,
        tally: &mut Tally,
    ) -> Result<(), NoMemory>
        requires rising { IsRising map.now.entries }
        requires at { IsAt self.old map.now.entries }
        requires admits { All (λ row. V.admits visit.old row.0 row.1)
            (between low.now high.now map.now.entries) }
        ensures at { OnOk result (IsAt self.new map.now.entries) }
        ensures handed { OnOk result
            (Handed V.takes visit.old (between low.now high.now map.now.entries) visit.new) }
        ensures tally { OnOk result (tally_number tally.new
            ≡ capped_sum (tally_number tally.old)
            (length (between low.now high.now map.now.entries))) }
        ensures stopped { IfErr result (λ fault. (handed : ℕ)
            × Stops V.takes visit.old
            (between low.now high.now map.now.entries) fault visit.new handed
            × (tally_number tally.new ≡ capped_sum (tally_number tally.old) handed)) }
    {
        if self.is_clear(low, high) {
            return Ok(());
        }
        if low.cmp(&high).is_gt() {
            return Ok(());
        }
        self.reach(map, low, room);
        self.place = hand_out(
            map,
            alloc,
            self.place,
            &mut self.rest,
            high,
            room,
            visit,
            tally,
        )?;
        self.from = high;
        Ok(())
    }

    // Goes to the first row from this key on: over a few rows below it, and by a way down the map
    // where there are more.
    fn reach(&mut self, map: &'a BTreeMap<Bytes, Bytes>, low: &'a [u8], room: &mut Bytes)
        requires rising { IsRising map.now.entries }
        requires at { IsAt self.old map.now.entries }
        ensures { pending self.new.place self.new.rest ≡ rows_from low.now map.now.entries }
    {
        if self.from.cmp(&low).is_le() {
            let end = End::of(low);
            self.place = step_over(self.place, &mut self.rest, &end);
            if !is_below(self.place, &end) {
                return;
            }
        }
        *self = Cursor::at(map, low, room);
    }

    // Whether no row from the cursor's key on is below `high`, and `low` is not below that key.
    fn is_clear(&self, low: &[u8], high: &[u8]) -> bool
        ensures from { result ≡ true → is_le (slice_cmp nat_cmp self.now.from.now low.now) ≡ true }
        ensures clear { result ≡ true → IsClear high.now self.now.place }
    {
        if self.from.cmp(&low).is_gt() {
            return false;
        }
        match self.place {
            Some((first, _)) => high.cmp(&first.as_slice()).is_le(),
            None => true,
        }
    }
}

// The rows from a key on, or all rows where there was no memory for a copy of the key.
fn way_down<'a>(
    map: &'a BTreeMap<Bytes, Bytes>,
    low: &[u8],
    room: &mut Bytes,
) -> Range<'a, Bytes, Bytes>
    requires { IsRising map.now.entries }
    ensures { rows_after low.now result ≡ rows_from low.now map.now.entries }
{
    room.truncate(0);
    match room.append(low) {
        Ok(()) => from_key(map, room),
        Err(NoMemory) => from_first(map),
    }
}

// The rows from a key on.
fn from_key<'a>(map: &'a BTreeMap<Bytes, Bytes>, low: &Bytes) -> Range<'a, Bytes, Bytes>
    ensures { result ≡ rows_from low.now map.now.entries }
{
    map.range(low..)
}

// All rows.
fn from_first(map: &BTreeMap<Bytes, Bytes>) -> Range<'_, Bytes, Bytes>
    ensures { result ≡ map.now.entries }
{
    map.range(..)
}

// Takes the rows below the key, and the first of the others, which is the answer.
fn first_from<'a>(rest: &mut Range<'a, Bytes, Bytes>, key: &[u8]) -> Option<(&'a Bytes, &'a Bytes)>
    ensures { pending result rest.new ≡ rows_after key.now rest.old }
{
    let end = End::of(key);
    let mut next = rest.next();
    'rows: while let Some((first, _)) = next {
        if end.is_reached(first) {
            break;
        }
        next = rest.next();
    }
    next
}

// Whether the place is a row below the key.
fn is_below(place: Option<(&Bytes, &Bytes)>, key: &End<'_>) -> bool
    ensures below { result ≡ true → (rest : Rows)
        → rows_after key.now (pending place.entry rest) ≡ rows_after key.now rest }
    ensures clear { result ≡ false → IsClear key.now place.entry }
{
    match place {
        Some((first, _)) => !key.is_reached(first),
        None => false,
    }
}

// The place after at most so many rows below the key.
fn step_over<'a>(
    place: Option<(&'a Bytes, &'a Bytes)>,
    rest: &mut Range<'a, Bytes, Bytes>,
    key: &End<'_>,
) -> Option<(&'a Bytes, &'a Bytes)>
    ensures { rows_after key.now (pending result rest.new)
        ≡ rows_after key.now (pending place.entry rest.old) }
{
    let mut next = place;
    'steps: for _ in 0..STEPS {
        if !is_below(next, key) {
            break;
        }
        next = rest.next();
    }
    next
}

// Hands out the rows below the key, and answers the first of the others. Where there are many, the
// end is searched for.
fn hand_out<'a, V: Visit>(
    map: &'a BTreeMap<Bytes, Bytes>,
    alloc: Global,
    place: Option<(&'a Bytes, &'a Bytes)>,
    rest: &mut Range<'a, Bytes, Bytes>,
    high: &[u8],
    room: &mut Bytes,
    visit: &mut V,
    tally: &mut Tally,
) -> Result<Option<(&'a Bytes, &'a Bytes)>, NoMemory>
    requires rising { IsRising map.now.entries }
    requires last { IsLastOf (pending place rest.old) map.now.entries }
    requires admits { All (λ row. V.admits visit.old row.0 row.1)
        (rows_below high.now (pending place rest.old)) }
    ensures after { IfOk result (λ left. pending left rest.new
        ≡ rows_after high.now (pending place.entry rest.old)) }
    ensures handed { OnOk result
        (Handed V.takes visit.old (rows_below high.now (pending place.entry rest.old)) visit.new) }
    ensures tally { OnOk result (tally_number tally.new
        ≡ capped_sum (tally_number tally.old)
        (length (rows_below high.now (pending place.entry rest.old)))) }
    ensures stopped { IfErr result (λ fault. (handed : ℕ)
        × Stops V.takes visit.old
        (rows_below high.now (pending place.entry rest.old)) fault visit.new handed
        × (tally_number tally.new ≡ capped_sum (tally_number tally.old) handed)) }
{
    let end = End::of(high);
    let mut next = place;
    'few: for _ in 0..FEW {
        let Some((key, bytes)) = next else {
            return Ok(None);
        };
        if end.is_reached(key) {
            return Ok(next);
        }
        tally.add(1);
        visit.row(alloc, key.as_slice(), bytes.as_slice())?;
        next = rest.next();
    }
    hand_out_many(map, alloc, next, rest, high, room, visit, tally)
}

// Hands out the rows below the key, and answers the first of the others. The end is searched for,
// so that of the rows only the first is compared with the key. Where there is no memory for a copy
// of the key, each is.
fn hand_out_many<'a, V: Visit>(
    map: &'a BTreeMap<Bytes, Bytes>,
    alloc: Global,
    place: Option<(&'a Bytes, &'a Bytes)>,
    rest: &mut Range<'a, Bytes, Bytes>,
    high: &[u8],
    room: &mut Bytes,
    visit: &mut V,
    tally: &mut Tally,
) -> Result<Option<(&'a Bytes, &'a Bytes)>, NoMemory>
    requires rising { IsRising map.now.entries }
    requires last { IsLastOf (pending place rest.old) map.now.entries }
    requires admits { All (λ row. V.admits visit.old row.0 row.1)
        (rows_below high.now (pending place rest.old)) }
    ensures after { IfOk result (λ left. pending left rest.new
        ≡ rows_after high.now (pending place.entry rest.old)) }
    ensures handed { OnOk result
        (Handed V.takes visit.old (rows_below high.now (pending place.entry rest.old)) visit.new) }
    ensures tally { OnOk result (tally_number tally.new
        ≡ capped_sum (tally_number tally.old)
        (length (rows_below high.now (pending place.entry rest.old)))) }
    ensures stopped { IfErr result (λ fault. (handed : ℕ)
        × Stops V.takes visit.old
        (rows_below high.now (pending place.entry rest.old)) fault visit.new handed
        × (tally_number tally.new ≡ capped_sum (tally_number tally.old) handed)) }
{
    let Some((first, _)) = place else {
        return Ok(None);
    };
    if End::of(high).is_reached(first) {
        return Ok(place);
    }
    if !holds(room, high) {
        return hand_out_all(alloc, place, rest, high, visit, tally);
    }
    scan_range(alloc, map, first, room, visit, tally)?;
    *rest = way_down(map, high, room);
    Ok(first_from(rest, high))
}

// Whether the room now has the key: whether there was memory for it.
fn holds(room: &mut Bytes, key: &[u8]) -> bool
    ensures { result ≡ true → room.new ≡ key.now }
{
    room.truncate(0);
    room.append(key).is_ok()
}

// Hands out the rows below the key, each compared with it, and answers the first of the others.
fn hand_out_all<'a, V: Visit>(
    alloc: Global,
    place: Option<(&'a Bytes, &'a Bytes)>,
    rest: &mut Range<'a, Bytes, Bytes>,
    high: &[u8],
    visit: &mut V,
    tally: &mut Tally,
) -> Result<Option<(&'a Bytes, &'a Bytes)>, NoMemory>
    requires { All (λ row. V.admits visit.old row.0 row.1)
        (rows_below high.now (pending place rest.old)) }
    ensures after { IfOk result (λ left. pending left rest.new
        ≡ rows_after high.now (pending place.entry rest.old)) }
    ensures handed { OnOk result
        (Handed V.takes visit.old (rows_below high.now (pending place.entry rest.old)) visit.new) }
    ensures tally { OnOk result (tally_number tally.new
        ≡ capped_sum (tally_number tally.old)
        (length (rows_below high.now (pending place.entry rest.old)))) }
    ensures stopped { IfErr result (λ fault. (handed : ℕ)
        × Stops V.takes visit.old
        (rows_below high.now (pending place.entry rest.old)) fault visit.new handed
        × (tally_number tally.new ≡ capped_sum (tally_number tally.old) handed)) }
{
    let end = End::of(high);
    let mut next = place;
    'rows: while let Some((key, bytes)) = next {
        if end.is_reached(key) {
            break;
        }
        tally.add(1);
        visit.row(alloc, key.as_slice(), bytes.as_slice())?;
        next = rest.next();
    }
    Ok(next)
}

/// Hands out the rows between two keys.
pub(crate) fn scan_range<V: Visit>(
    alloc: Global,
    map: &BTreeMap<Bytes, Bytes>,
    low: &Bytes,
    high: &Bytes,
    visit: &mut V,
    tally: &mut Tally,
) -> Result<(), NoMemory>
    requires { All (λ row. V.admits visit.old row.0 row.1)
        (between low.now high.now map.now.entries) }
    ensures handed { OnOk result
        (Handed V.takes visit.old (between low.now high.now map.now.entries) visit.new) }
    ensures tally { OnOk result (tally_number tally.new
        ≡ capped_sum (tally_number tally.old) (length (between low.now high.now map.now.entries))) }
    ensures stopped { IfErr result (λ fault. (handed : ℕ)
        × Stops V.takes visit.old (between low.now high.now map.now.entries) fault visit.new handed
        × (tally_number tally.new ≡ capped_sum (tally_number tally.old) handed)) }
{
    if low.cmp(high).is_gt() {
        return Ok(());
    }
    for (key, bytes) in map.range(low..high) {
        tally.add(1);
        visit.row(alloc, key.as_slice(), bytes.as_slice())?;
    }
    Ok(())
}
