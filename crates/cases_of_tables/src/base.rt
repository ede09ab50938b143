// Cases of bytes, texts, identifiers and spans.
use crate::words;
use gm_base::{Bytes, Counter, FeatureId, IdFault, Items, NoMemory, Prefix, SpanList, Tally, Text};
use std::alloc::Global;

pub fn answer(alloc: Global, word: &str, rest: &str) -> Result<String, NoMemory> {
    match word {
        "identify" => identify(alloc, rest),
        "keep" => keep(alloc, rest),
        "grow" => grow(alloc, rest.parse::<u32>().unwrap_or(0)),
        "spans" => spans(alloc, rest.parse::<u64>().unwrap_or(0)),
        _ => Ok(format!(in alloc; "{}", joined(rest.parse::<u64>().unwrap_or(0)))?),
    }
}

// The identifier again, by a copy of it, or why it is none.
fn identify(alloc: Global, text: &str) -> Result<String, NoMemory> {
    match FeatureId::of(alloc, text.as_bytes()) {
        Ok(id) => words::text(alloc, id.copy(alloc)?.as_str()),
        Err(IdFault::Form) => words::text(alloc, "no identifier"),
        Err(IdFault::NoMemory) => Err(NoMemory),
    }
}

// The text as bytes, as a text and as a list, each made and copied.
fn keep(alloc: Global, text: &str) -> Result<String, NoMemory> {
    let mut bytes = Bytes::from_slice(alloc, text.as_bytes())?;
    bytes.append(b"+")?;
    let copy = bytes.copy(alloc)?;
    let kept = Text::from_str(alloc, text)?.copy(alloc)?;
    let mut items = Items::from_slice(alloc, text.as_bytes())?;
    items.push(b'+')?;
    let same = copy == bytes && items.as_slice() == bytes.as_slice();
    Ok(format!(in alloc; "{} {} {same}", kept.as_str(), copy.len())?)
}

// How long bytes are that grew by so many pieces of 1,024.
fn grow(alloc: Global, pieces: u32) -> Result<String, NoMemory> {
    let mut bytes = Bytes::new(alloc);
    let piece = [7u8; 1024];
    for _ in 0..pieces {
        bytes.append(&piece)?;
    }
    Ok(format!(in alloc; "{}", bytes.len())?)
}

// The number of so many spans and the ends of the last, made in a list of its own and, behind a
// prefix, in one that had its room and other spans before.
fn spans(alloc: Global, count: u64) -> Result<String, NoMemory> {
    let mut list = SpanList::new(alloc);
    fill(&mut list, count)?;
    let mut roomy = SpanList::with_capacity(alloc, 8, 8 * 20)?;
    fill(&mut roomy, 8)?;
    roomy.clear();
    fill_behind(&mut roomy, count)?;
    let last = list.len();
    if last == 0 || roomy.len() != last {
        return words::text(alloc, "none");
    }
    let (low, high) = list.get(last - 1);
    let same = roomy.get(last - 1) == (low, high);
    Ok(format!(in alloc; "{last} {low:?} {high:?} {same}")?)
}

fn fill(list: &mut SpanList, count: u64) -> Result<(), NoMemory> {
    for code in 0..count {
        let low = code.to_be_bytes();
        let high = code.wrapping_add(1).to_be_bytes();
        list.push(&[&[7], &low], &[&[7], &high])?;
    }
    Ok(())
}

// The same spans, whose ends have a prefix and then bytes of a fixed number.
fn fill_behind(list: &mut SpanList, count: u64) -> Result<(), NoMemory> {
    let prefix = Prefix::of(&[7]);
    for code in 0..count {
        let low = code.to_be_bytes();
        let high = code.wrapping_add(1).to_be_bytes();
        list.push_behind(&prefix, &low, &high, 8)?;
    }
    Ok(())
}

// A counter after so many rows and as many of a part.
fn joined(rows: u64) -> u64 {
    let mut tally = Tally::new();
    tally.add(rows);
    let mut part = tally.part();
    part.add(rows);
    tally.join(part);
    tally.close()
}
