// Cases of tables.
ghost use Rattle.std.specs.Prelude.{◌≡◌, IfOk, IsTrue, ◌++◌, map};
ghost use Rattle.gm_table.specs.Batch.{are_distinct, has_key};
ghost use Rattle.gm_table.specs.Row.{key_of};

use crate::words;
use gm_base::{Bytes, Items, NoMemory, SpanList, Tally};
use gm_table::{Batch, BlockTable, MapTable, Row, Sorted, Visit, replay};
use std::alloc::Global;

pub fn answer(alloc: Global, word: &str, rest: &str) -> Result<String, NoMemory> {
    match word {
        "find" => find(alloc, rest),
        "scan" => scan(alloc, rest),
        "scan_spans" => scan_spans(alloc, rest),
        _ => rows(alloc, rest.parse::<u64>().unwrap_or(0)),
    }
}

// Takes as many rows as it has room for, and writes them out.
#[derive(Drop)]
struct Writer {
    text: Bytes,
    room: u64,
}

impl Visit for Writer {
    ghost admits = { λ _ _ _. Unit {0} };

    ghost takes = { λ _ _ _ _ _. Unit {0} };

    ghost keeps = { λ _ _ _ _ _ _ _ _ _ _. tt };

    fn row(&mut self, _alloc: Global, key: &[u8], bytes: &[u8]) -> Result<(), NoMemory> {
        if self.room == 0 {
            return Err(NoMemory);
        }
        self.room -= 1;
        self.text.append(key)?;
        self.text.append(b"=")?;
        self.text.append(bytes)?;
        self.text.append(b";")
    }
}

// Counts rows.
#[derive(Drop)]
struct Count {
    rows: u64,
}

impl Visit for Count {
    ghost admits = { λ _ _ _. Unit {0} };

    ghost takes = { λ _ _ _ _ _. Unit {0} };

    ghost keeps = { λ _ _ _ _ _ _ _ _ _ _. tt };

    fn row(&mut self, _alloc: Global, _key: &[u8], _bytes: &[u8]) -> Result<(), NoMemory> {
        self.rows = self.rows.saturating_add(1);
        Ok(())
    }
}

// A table that leaves to the trait what it may.
#[derive(Drop)]
struct Plain {
    inner: MapTable,
}

impl Sorted for Plain {
    type Tally = Tally;

    ghost rows = { λ table. ⟦<MapTable as Sorted>⟧.rows table.inner };

    ghost rising = { λ table. table.inner.rising };

    fn get(&self, key: &Bytes, tally: &mut Tally) -> Option<&[u8]> {
        self.inner.get(key, tally)
    }

    fn scan_between<V: Visit>(
        &self,
        alloc: Global,
        low: &[u8],
        high: &[u8],
        visit: &mut V,
        tally: &mut Tally,
    ) -> Result<(), NoMemory> {
        self.inner.scan_between(alloc, low, high, visit, tally)
    }

    fn apply(&mut self, alloc: Global, batch: &Batch) -> Result<(), NoMemory> {
        self.inner.apply(alloc, batch)
    }

    fn count(&self) -> u64 {
        self.inner.count()
    }
}

// A batch that puts one row.
fn put(alloc: Global, key: &[u8], bytes: &[u8]) -> Result<Batch, NoMemory>
    ensures { IfOk result (λ batch. IsTrue
        (are_distinct (batch.removes ++ map key_of batch.puts))) }
{
    let mut puts = Vec::new(alloc);
    puts.push(Row {
        key: Bytes::from_slice(alloc, key)?,
        bytes: Bytes::from_slice(alloc, bytes)?,
    })?;
    Ok(Batch {
        removes: Items::new(alloc),
        puts: Items::from_vec(puts),
    })
}

// A batch that takes one key out.
fn removal(alloc: Global, key: &[u8]) -> Result<Batch, NoMemory>
    ensures { IfOk result (λ batch. IsTrue
        (are_distinct (batch.removes ++ map key_of batch.puts))) }
{
    let mut removes = Vec::new(alloc);
    removes.push(Bytes::from_slice(alloc, key)?)?;
    Ok(Batch {
        removes: Items::from_vec(removes),
        puts: Items::new(alloc),
    })
}

// A table without rows gets a=1, ab=12, b=two, after a row c that was taken out and an older b.
fn filled<B: Sorted + Drop>(alloc: Global, table: B) -> Result<B, NoMemory> {
    let mut table = table;
    let puts: [(&[u8], &[u8]); 5] = [
        (b"b", b"2"),
        (b"a", b"1"),
        (b"ab", b"12"),
        (b"c", b"3"),
        (b"b", b"two"),
    ];
    for (key, bytes) in puts {
        table.apply(alloc, &put(alloc, key, bytes)?)?;
    }
    table.apply(alloc, &removal(alloc, b"c")?)?;
    Ok(table)
}

fn whole_map(alloc: Global) -> Result<MapTable, NoMemory> {
    filled(alloc, MapTable::new(alloc))
}

fn blocks(alloc: Global) -> Result<BlockTable, NoMemory> {
    filled(alloc, BlockTable::new(alloc))
}

fn plain_map(alloc: Global) -> Result<Plain, NoMemory> {
    Ok(Plain {
        inner: whole_map(alloc)?,
    })
}

// What the map tells, and whether the other tables tell the same.
fn agreed(alloc: Global, one: &str, others: [&str; 2]) -> Result<String, NoMemory> {
    let same = others.iter().all(|other| *other == one);
    Ok(format!(in alloc; "{one} {same}")?)
}

// What stands at a key, and how many rows were counted.
fn find(alloc: Global, key: &str) -> Result<String, NoMemory> {
    let one = at_key(alloc, &whole_map(alloc)?, key)?;
    let other = at_key(alloc, &plain_map(alloc)?, key)?;
    let third = at_key(alloc, &blocks(alloc)?, key)?;
    agreed(alloc, one.as_str(), [other.as_str(), third.as_str()])
}

fn at_key<B: Sorted<Tally = Tally>>(
    alloc: Global,
    table: &B,
    key: &str,
) -> Result<String, NoMemory> {
    let key = Bytes::from_slice(alloc, key.as_bytes())?;
    let mut tally = Tally::new();
    let bytes = table.get(&key, &mut tally);
    let counted = tally.close();
    let text = match bytes {
        Some(bytes) => str::from_utf8(bytes).unwrap_or("no text"),
        None => "none",
    };
    Ok(format!(in alloc; "{text} {counted} of {}", table.count())?)
}

// The rows between two keys.
fn scan(alloc: Global, ends: &str) -> Result<String, NoMemory> {
    let (low, high) = ends_of(ends);
    let one = scanned(alloc, &whole_map(alloc)?, low, high)?;
    let other = scanned(alloc, &plain_map(alloc)?, low, high)?;
    let third = scanned(alloc, &blocks(alloc)?, low, high)?;
    agreed(alloc, one.as_str(), [other.as_str(), third.as_str()])
}

fn ends_of(ends: &str) -> (&str, &str) {
    ends.split_once(',').unwrap_or((ends, ""))
}

fn scanned<B: Sorted<Tally = Tally>>(
    alloc: Global,
    table: &B,
    low: &str,
    high: &str,
) -> Result<String, NoMemory> {
    let low = Bytes::from_slice(alloc, low.as_bytes())?;
    let high = Bytes::from_slice(alloc, high.as_bytes())?;
    let mut writer = writer_of(alloc, 9);
    let mut tally = Tally::new();
    let answer = table.scan(alloc, &low, &high, &mut writer, &mut tally);
    told(alloc, &writer, answer, tally.close())
}

fn writer_of(alloc: Global, room: u64) -> Writer {
    Writer {
        text: Bytes::new(alloc),
        room,
    }
}

// What was written, how many rows were counted, and whether the visitor ended the scan.
fn told(
    alloc: Global,
    writer: &Writer,
    answer: Result<(), NoMemory>,
    counted: u64,
) -> Result<String, NoMemory> {
    let text = str::from_utf8(writer.text.as_slice()).unwrap_or("no text");
    Ok(format!(in alloc; "{text} {counted} {}", answer.is_ok())?)
}

// The rows of spans, with room for so many: `9 ,a a,aa`.
fn scan_spans(alloc: Global, case: &str) -> Result<String, NoMemory> {
    let (room, spans) = words::split(case);
    let room = room.parse::<u64>().unwrap_or(0);
    let mut list = SpanList::new(alloc);
    for span in spans.split(' ') {
        let (low, high) = ends_of(span);
        list.push(&[low.as_bytes()], &[high.as_bytes()])?;
    }
    let one = spanned(alloc, &whole_map(alloc)?, &list, room)?;
    let other = spanned(alloc, &plain_map(alloc)?, &list, room)?;
    let third = spanned(alloc, &blocks(alloc)?, &list, room)?;
    agreed(alloc, one.as_str(), [other.as_str(), third.as_str()])
}

fn spanned<B: Sorted<Tally = Tally>>(
    alloc: Global,
    table: &B,
    list: &SpanList,
    room: u64,
) -> Result<String, NoMemory> {
    let mut writer = writer_of(alloc, room);
    let mut tally = Tally::new();
    let answer = table.scan_spans(alloc, list, 0..list.len(), &mut writer, &mut tally);
    told(alloc, &writer, answer, tally.close())
}

// So many rows, put in by as many batches, over the map and over blocks, and how many blocks are
// left where all are taken out again.
fn rows(alloc: Global, count: u64) -> Result<String, NoMemory> {
    let mut over_map = MapTable::new(alloc);
    let one = replayed(alloc, &mut over_map, count)?;
    let mut over_blocks = BlockTable::new(alloc);
    let other = replayed(alloc, &mut over_blocks, count)?;
    let same = one.as_str() == other.as_str();
    let made = over_blocks.blocks();
    let is_cut = 2 <= made && made <= 256;
    take_all_out(alloc, &mut over_blocks, count)?;
    Ok(format!(in alloc;
        "{} {same}, 2 to 256 blocks {is_cut}, then {} blocks of {} rows",
        one.as_str(),
        over_blocks.blocks(),
        over_blocks.count()
    )?)
}

// How many rows a table without rows gets by one replay of batches of one in rising order, and how
// many of them spans find that hold every third row, alone and in runs of a hundred.
fn replayed<B: Sorted<Tally = Tally>>(
    alloc: Global,
    table: &mut B,
    count: u64,
) -> Result<String, NoMemory> {
    let mut batches = Items::new(alloc);
    for i in 0..count {
        let key = i.to_be_bytes();
        batches.push(put(alloc, &key, &key)?)?;
    }
    replay(alloc, table, &batches)?;
    let thirds = found(alloc, table, count, 3, 1)?;
    let runs = found(alloc, table, count, 300, 100)?;
    Ok(format!(in alloc;
        "{} rows, {thirds} in thirds, {runs} in runs",
        table.count()
    )?)
}

// Takes the rows with these keys out, all by one batch.
fn take_all_out<B: Sorted>(alloc: Global, table: &mut B, count: u64) -> Result<(), NoMemory> {
    let mut keys = Vec::new(alloc);
    for i in 0..count {
        keys.push(Bytes::from_slice(alloc, &i.to_be_bytes())?)?;
    }
    let batch = Batch {
        removes: Items::from_vec(keys),
        puts: Items::new(alloc),
    };
    if is_distinct(&batch) {
        table.apply(alloc, &batch)?;
    }
    Ok(())
}

// Whether the batch puts nothing and no two of its keys are equal.
fn is_distinct(batch: &Batch) -> bool
    ensures { IsTrue result → IsTrue
        (are_distinct (batch.now.removes ++ map key_of batch.now.puts)) }
{
    batch.puts.is_empty() && are_keys_distinct(batch.removes.as_slice())
}

fn are_keys_distinct(keys: &[Bytes]) -> bool
    ensures { result ≡ are_distinct keys.now }
{
    match keys {
        [] => true,
        [first, rest @ ..] => !is_among(first, rest) && are_keys_distinct(rest),
    }
}

fn is_among(key: &Bytes, keys: &[Bytes]) -> bool
    ensures { result ≡ has_key key.now keys.now }
{
    keys.iter().any(|other| key.cmp(other).is_eq())
}

// The rows of spans of so many rows, each so many rows behind the one before.
fn found<B: Sorted<Tally = Tally>>(
    alloc: Global,
    table: &B,
    count: u64,
    step: u64,
    wide: u64,
) -> Result<u64, NoMemory> {
    let mut list = SpanList::new(alloc);
    for i in 0..count.checked_div(step).unwrap_or(0) {
        let low = i.wrapping_mul(step);
        let high = low.wrapping_add(wide);
        list.push(&[&low.to_be_bytes()], &[&high.to_be_bytes()])?;
    }
    let mut counter = Count { rows: 0 };
    let mut tally = Tally::new();
    let answer = table.scan_spans(alloc, &list, 0..list.len(), &mut counter, &mut tally);
    let _ = tally.close();
    answer?;
    Ok(counter.rows)
}
