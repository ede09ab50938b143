// A list of spans of keys, in one buffer.
ghost use Rattle.std.specs.Prelude.{◌≡◌, ◌<◌, ◌≤◌, ◌++◌, ◌∷◌, ◌↔◌, [], length, take, slice_range};
ghost use Rattle.std.specs.Prelude.{slice_index_or, IsTrue, IfOk, OnOk, OnErr};
ghost use Rattle.gm_base.specs.Spans.{Span, joined, AreEnds, spans_from, start_at};

use crate::prefix::{PREFIX_ROOM, append_first};
use crate::{NoMemory, Prefix};
use std::alloc::Global;
use std::marker::Model;

// Where the two ends of a span stop in the buffer. The low end starts where the span before it
// stops, and the high end where the low one stops.
#[derive(Clone, Copy, Debug)]
pub(crate) struct Ends {
    low: usize,
    high: usize,
}

/// Spans of keys, seen as the list of their low and high ends. The low end is a key of the span,
/// and the high end is none; a span whose high end is not above its low end has no key. The bytes
/// of all ends stand in one buffer, so a span takes no allocation of its own.
#[derive(Debug, Drop)]
pub struct SpanList {
    bytes: Vec<u8>,
    ends: Vec<Ends>,
}

impl Model for SpanList {
    ghost use Rattle.std.specs.Prelude.{ℕ, List, length};

    ghost Value = { List (List ℕ × List ℕ) };

    ghost use Rattle.gm_base.specs.Spans.{AreEnds, spans_from};

    ghost view = { λ it. spans_from 0 it.ends.items it.bytes.items };

    ghost invariant = { λ it. AreEnds 0 it.ends.items (length it.bytes.items) };
}

impl SpanList {
    pub fn new(alloc: Global) -> SpanList
        ensures { result ≡ [] }
    {
        SpanList {
            bytes: Vec::new(alloc),
            ends: Vec::new(alloc),
        }
    }

    /// A list with room for so many spans, whose ends have so many bytes together, and for what an
    /// append behind a prefix wants for a while, where its arrays have at most 16 bytes.
    pub fn with_capacity(alloc: Global, spans: usize, bytes: usize) -> Result<SpanList, NoMemory>
        ensures { IfOk result (λ list. list ≡ []) }
    {
        Ok(SpanList {
            bytes: Vec::with_capacity(alloc, bytes.saturating_add(PREFIX_ROOM))?,
            ends: Vec::with_capacity(alloc, spans)?,
        })
    }

    /// The number of spans.
    pub fn len(&self) -> usize
        ensures { result ≡ length self.now }
    {
        self.ends.len()
    }

    pub fn is_empty(&self) -> bool
        ensures { IsTrue result ↔ (self.now ≡ []) }
    {
        self.ends.is_empty()
    }

    /// Appends the span of these two ends, each given as parts that are laid end to end.
    pub fn push(&mut self, low: &[&[u8]], high: &[&[u8]]) -> Result<(), NoMemory>
        ensures ok { OnOk result (self.new ≡ self.old ++ (joined low.now, joined high.now) ∷ []) }
        ensures err { OnErr result (self.new ≡ self.old) }
    {
        let before = self.bytes.len();
        if let Err(error) = push_span(&mut self.bytes, &mut self.ends, low, high) {
            self.bytes.truncate(before);
            return Err(error);
        }
        Ok(())
    }

    /// Appends a span whose ends have the same bytes in front: of these, the low end is followed by
    /// the one array and the high end by the first bytes of the other.
    pub fn push_behind<const N: usize>(
        &mut self,
        prefix: &Prefix,
        low: &[u8; N],
        high: &[u8; N],
        count: usize,
    ) -> Result<(), NoMemory>
        requires { count ≤ N }
        ensures ok { OnOk result (self.new ≡ self.old
            ++ (prefix.now ++ low.now, prefix.now ++ take count high.now) ∷ []) }
        ensures err { OnErr result (self.new ≡ self.old) }
    {
        let length = self.bytes.len();
        if let Err(error) = push_prefixed(
            &mut self.bytes,
            &mut self.ends,
            prefix,
            low,
            high,
            count,
        ) {
            self.bytes.truncate(length);
            return Err(error);
        }
        Ok(())
    }

    /// The low and the high end of a span. No memory.
    pub fn get(&self, i: usize) -> (&[u8], &[u8])
        requires { i < length self.now }
        ensures { let span : Span = (result.0.now, result.1.now) in span
            ≡ slice_index_or self.now i span }
    {
        let start = start_of(&self.ends, i);
        cut(&self.bytes, start, self.ends[i])
    }

    /// Takes all spans out. The buffer stays, for the spans to come.
    pub fn clear(&mut self)
        ensures { self.new ≡ [] }
    {
        self.bytes.clear();
        self.ends.clear();
    }
}

// Appends the bytes of a span, and where its ends stop. Where there is no memory, further bytes may
// stay in the buffer.
fn push_span(
    bytes: &mut Vec<u8>,
    ends: &mut Vec<Ends>,
    low: &[&[u8]],
    high: &[&[u8]],
) -> Result<(), NoMemory>
    requires { AreEnds 0 ends.old.items (length bytes.old.items) }
    ensures ends { OnOk result (AreEnds 0 ends.new.items (length bytes.new.items)) }
    ensures spans { OnOk result (spans_from 0 ends.new.items bytes.new.items
        ≡ spans_from 0 ends.old.items bytes.old.items ++ (joined low.now, joined high.now) ∷ []) }
    ensures err { OnErr result (ends.new.items ≡ ends.old.items) }
    ensures front { take (length bytes.old.items) bytes.new.items ≡ bytes.old.items }
{
    append_parts(bytes, low)?;
    let middle = bytes.len();
    append_parts(bytes, high)?;
    ends.push(Ends {
        low: middle,
        high: bytes.len(),
    })?;
    Ok(())
}

// Appends the bytes of a span whose ends have the same bytes in front, and where its ends stop.
// Where there is no memory, further bytes may stay in the buffer.
fn push_prefixed<const N: usize>(
    bytes: &mut Vec<u8>,
    ends: &mut Vec<Ends>,
    prefix: &Prefix,
    low: &[u8; N],
    high: &[u8; N],
    count: usize,
) -> Result<(), NoMemory>
    requires count { count ≤ N }
    requires ends { AreEnds 0 ends.old.items (length bytes.old.items) }
    ensures ends { OnOk result (AreEnds 0 ends.new.items (length bytes.new.items)) }
    ensures spans { OnOk result (spans_from 0 ends.new.items bytes.new.items
        ≡ spans_from 0 ends.old.items bytes.old.items
        ++ (prefix.now ++ low.now, prefix.now ++ take count high.now) ∷ []) }
    ensures err { OnErr result (ends.new.items ≡ ends.old.items) }
    ensures front { take (length bytes.old.items) bytes.new.items ≡ bytes.old.items }
{
    append_whole(bytes, prefix, low)?;
    let middle = bytes.len();
    append_prefixed(bytes, prefix, high, count)?;
    ends.push(Ends {
        low: middle,
        high: bytes.len(),
    })?;
    Ok(())
}

// Appends a prefix and an array. Where there is no memory, the prefix may stay.
fn append_whole<const N: usize>(
    bytes: &mut Vec<u8>,
    prefix: &Prefix,
    tail: &[u8; N],
) -> Result<(), NoMemory>
    ensures ok { OnOk result (bytes.new.items ≡ bytes.old.items ++ (prefix.now ++ tail.now)) }
    ensures front { take (length bytes.old.items) bytes.new.items ≡ bytes.old.items }
{
    prefix.append_to(bytes)?;
    bytes.extend_from_slice(tail)?;
    Ok(())
}

// Appends a prefix and the first bytes of an array. Where there is no memory, the prefix may stay.
fn append_prefixed<const N: usize>(
    bytes: &mut Vec<u8>,
    prefix: &Prefix,
    tail: &[u8; N],
    count: usize,
) -> Result<(), NoMemory>
    requires { count ≤ N }
    ensures ok { OnOk result (bytes.new.items
        ≡ bytes.old.items ++ (prefix.now ++ take count tail.now)) }
    ensures front { take (length bytes.old.items) bytes.new.items ≡ bytes.old.items }
{
    prefix.append_to(bytes)?;
    append_first(bytes, tail, count)
}

// Appends the parts, one after the other. Where there is no memory, some of them may stay.
fn append_parts(bytes: &mut Vec<u8>, parts: &[&[u8]]) -> Result<(), NoMemory>
    ensures ok { OnOk result (bytes.new.items ≡ bytes.old.items ++ joined parts.now) }
    ensures front { take (length bytes.old.items) bytes.new.items ≡ bytes.old.items }
{
    for part in parts {
        bytes.extend_from_slice(part)?;
    }
    Ok(())
}

// Where the bytes of a span start.
fn start_of(ends: &[Ends], i: usize) -> usize
    requires { i < length ends.now }
    ensures { result ≡ start_at 0 i ends.now }
{
    if i == 0 { 0 } else { ends[i - 1].high }
}

// The two ends of a span.
fn cut(bytes: &[u8], start: usize, ends: Ends) -> (&[u8], &[u8])
    requires { (start ≤ ends.low) × (ends.low ≤ ends.high) × (ends.high ≤ length bytes.now) }
    ensures low { result.0.now ≡ slice_range bytes.now start ends.low }
    ensures high { result.1.now ≡ slice_range bytes.now ends.low ends.high }
{
    (&bytes[start..ends.low], &bytes[ends.low..ends.high])
}
