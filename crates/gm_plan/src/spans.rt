// Ranges as spans of keys.
ghost use Rattle.std.specs.Prelude.{◌≡◌, ◌≤◌, ◌++◌, ◌∷◌, [], length, true, false, IfOk, OnOk};
ghost use Rattle.byteorder.specs.Endian.{big_bytes};
ghost use Rattle.gm_keys.specs.Key as key;
ghost use Rattle.gm_lexi.specs.Ends.{after_of};
ghost use Rattle.gm_plan.specs.Spans as spec;
ghost use Rattle.gm_plan.specs.Raised.{up_to};

use byteorder::{BigEndian, ByteOrder};
use gm_base::{Bytes, NoMemory, Prefix};
use gm_bounds::{ByteRangeList, KeyRanges, Range};
use gm_lexi::after;
use gm_types::{FeatureType, IndexKind};
use std::alloc::Global;

/// The spans of the keys of ranges, by shard and then in the order of the ranges. Whatever ranges
/// are given, they are read as those of this index.
#[tactic(auto, using(crate::proofs::FlatRanges::flat_next))]
pub fn byte_ranges(
    alloc: Global,
    of: &FeatureType,
    kind: IndexKind,
    of_ranges: &KeyRanges,
) -> Result<ByteRangeList, NoMemory>
    ensures { IfOk result (λ spans. spans ≡ spec.spans_of of.now kind of_ranges.now) }
{
    let prefix = prefix_of(alloc, of, kind)?;
    let ranges = of_ranges.ranges.as_slice();
    let mut spans = room_for(alloc, ranges.len(), of_ranges.shards)?;
    'shards: for shard in 0..of_ranges.shards {
        let front = Front::of(alloc, prefix.as_slice(), shard)?;
        push_spans(alloc, &mut spans, &front, ranges)?;
    }
    Ok(spans)
}

// How many bytes the two ends of a span of codes in a bin have.
const ENDS_ROOM: usize = 28;

// A list with room for so many spans in each shard.
fn room_for(alloc: Global, ranges: usize, shards: u8) -> Result<ByteRangeList, NoMemory>
    ensures { IfOk result (λ spans. spans ≡ []) }
{
    let count = ranges.saturating_mul(usize::from(shards));
    ByteRangeList::with_capacity(alloc, count, count.saturating_mul(ENDS_ROOM))
}

// What the keys of an index begin with in a shard.
#[derive(Drop)]
struct Front<'a> {
    prefix: &'a [u8],
    shard: u8,
    joined: Prefix,
    ghost same: { joined ≡ prefix.now ++ shard ∷ [] },
}

impl<'a> Front<'a> {
    fn of(alloc: Global, prefix: &'a [u8], shard: u8) -> Result<Front<'a>, NoMemory>
        requires { length prefix.now ≤ 15 }
        ensures prefix { IfOk result (λ front. front.prefix.now ≡ prefix.now) }
        ensures shard { IfOk result (λ front. front.shard ≡ shard) }
    {
        let mut bytes = Bytes::from_slice(alloc, prefix)?;
        bytes.append(&[shard])?;
        let joined = Prefix::of(bytes.as_slice());
        Ok(Front {
            prefix,
            shard,
            joined,
        })
    }
}

// Adds the spans of a shard.
fn push_spans(
    alloc: Global,
    spans: &mut ByteRangeList,
    front: &Front<'_>,
    ranges: &[Range],
) -> Result<(), NoMemory>
    ensures { OnOk result (spans.new
        ≡ spans.old ++ spec.spans_in front.now.prefix.now ranges.now front.now.shard) }
{
    'each: for range in ranges {
        push_span(alloc, spans, front, range)?;
    }
    Ok(())
}

fn push_span(
    alloc: Global,
    spans: &mut ByteRangeList,
    front: &Front<'_>,
    range: &Range,
) -> Result<(), NoMemory>
    ensures { OnOk result (spans.new
        ≡ spans.old ++ spec.span_behind front.now.prefix.now front.now.shard range.now ∷ []) }
{
    match range {
        Range::Codes(low, high, _) => push_codes(alloc, spans, front, *low, *high),
        Range::InBin(bin_number, low, high, _) => {
            push_in_bin(alloc, spans, front, *bin_number, *low, *high)
        }
        Range::Span(first, last) => push_bins(alloc, spans, front, *first, *last),
        Range::Values(low, high) => {
            push_values(alloc, spans, front.prefix, low.as_slice(), high)
        }
        Range::OneId(id) => push_id(spans, front.prefix, id.as_bytes()),
        Range::All => push_from_to(alloc, spans, front.prefix, front.prefix),
    }
}

#[tactic(auto, using(crate::proofs::Fronts::code_front_is))]
fn push_codes(
    alloc: Global,
    spans: &mut ByteRangeList,
    front: &Front<'_>,
    low: u64,
    high: u64,
) -> Result<(), NoMemory>
    ensures { OnOk result (spans.new ≡ spans.old ++ spec.from_to
        (key.code_front front.now.prefix.now front.now.shard low)
        (key.code_front front.now.prefix.now front.now.shard high) ∷ []) }
{
    if push_behind(spans, &front.joined, code_bytes(low), code_bytes(high))? {
        return Ok(());
    }
    let low = code_front(alloc, front, low)?;
    let high = code_front(alloc, front, high)?;
    push_from_to(alloc, spans, low.as_slice(), high.as_slice())
}

#[tactic(auto, using(crate::proofs::Fronts::bin_code_front_is))]
fn push_in_bin(
    alloc: Global,
    spans: &mut ByteRangeList,
    front: &Front<'_>,
    bin_number: u16,
    low: u64,
    high: u64,
) -> Result<(), NoMemory>
    ensures { OnOk result (spans.new ≡ spans.old ++ spec.from_to
        (key.bin_code_front front.now.prefix.now front.now.shard bin_number low)
        (key.bin_code_front front.now.prefix.now front.now.shard bin_number high) ∷ []) }
{
    let least = in_bin_bytes(bin_number, low);
    let most = in_bin_bytes(bin_number, high);
    if push_behind(spans, &front.joined, least, most)? {
        return Ok(());
    }
    let low = bin_code_front(alloc, front, bin_number, low)?;
    let high = bin_code_front(alloc, front, bin_number, high)?;
    push_from_to(alloc, spans, low.as_slice(), high.as_slice())
}

// Adds the span of what stands behind a prefix, without a list of its own for an end, and answers
// whether it did: not where the high part has bytes 0xFF alone, since then the prefix is raised.
fn push_behind<const N: usize>(
    spans: &mut ByteRangeList,
    prefix: &Prefix,
    low: [u8; N],
    high: [u8; N],
) -> Result<bool, NoMemory>
    ensures pushed { IfOk result (λ pushed. pushed ≡ true → spans.new ≡ spans.old
        ++ spec.from_to (prefix.now ++ low.entry) (prefix.now ++ high.entry) ∷ []) }
    ensures not { IfOk result (λ pushed. pushed ≡ false → spans.new ≡ spans.old) }
{
    let mut end = high;
    let count = raise(&mut end);
    if count == 0 {
        return Ok(false);
    }
    spans.push_behind(prefix, &low, &end, count)?;
    Ok(true)
}

// Raises the last byte that is not 0xFF by one, and answers how many bytes stand up to it.
fn raise(bytes: &mut [u8]) -> usize
    ensures bound { result ≤ length bytes.new }
    ensures end { after_of bytes.old ≡ up_to result bytes.new }
{
    let mut end = bytes.len();
    while end > 0 && bytes[end - 1] == 0xFF {
        end -= 1;
    }
    if end > 0 {
        bytes[end - 1] += 1;
    }
    end
}

fn push_bins(
    alloc: Global,
    spans: &mut ByteRangeList,
    front: &Front<'_>,
    first: u16,
    last: u16,
) -> Result<(), NoMemory>
    ensures { OnOk result (spans.new ≡ spans.old ++ spec.from_to
        (key.bin_front front.now.prefix.now front.now.shard first)
        (key.bin_front front.now.prefix.now front.now.shard last) ∷ []) }
{
    let low = bin_front(alloc, front, first)?;
    let high = bin_front(alloc, front, last)?;
    push_from_to(alloc, spans, low.as_slice(), high.as_slice())
}

fn push_id(spans: &mut ByteRangeList, prefix: &[u8], id: &[u8]) -> Result<(), NoMemory>
    ensures { OnOk result (spans.new ≡ spans.old
        ++ (prefix.now ++ id.now, (prefix.now ++ id.now) ++ 0 ∷ []) ∷ []) }
{
    spans.push(&[prefix, id], &[prefix, id, &[0]])
}

// From what begins with the one to what begins with the other.
fn push_from_to(
    alloc: Global,
    spans: &mut ByteRangeList,
    low: &[u8],
    high: &[u8],
) -> Result<(), NoMemory>
    ensures { OnOk result (spans.new ≡ spans.old ++ spec.from_to low.now high.now ∷ []) }
{
    match after(alloc, high)? {
        Some(end) => spans.push(&[low], &[end.as_slice()]),
        None => spans.push(&[low], &[]),
    }
}

// From these values on, to the end of the prefix where they have none.
fn push_values(
    alloc: Global,
    spans: &mut ByteRangeList,
    prefix: &[u8],
    low: &[u8],
    high: &Option<Bytes>,
) -> Result<(), NoMemory>
    ensures { OnOk result (spans.new ≡ spans.old
        ++ (prefix.now ++ low.now, spec.value_end prefix.now high.now) ∷ []) }
{
    match high {
        Some(high) => spans.push(&[prefix, low], &[prefix, high.as_slice()]),
        None => match after(alloc, prefix)? {
            Some(end) => spans.push(&[prefix, low], &[end.as_slice()]),
            None => spans.push(&[prefix, low], &[]),
        },
    }
}

#[tactic(auto, unfolding(gm_keys::specs::Key::prefix_of))]
fn prefix_of(alloc: Global, of: &FeatureType, kind: IndexKind) -> Result<Bytes, NoMemory>
    ensures prefix { IfOk result (λ prefix. prefix ≡ key.prefix_of of.now kind) }
    ensures short { IfOk result (λ prefix. length prefix ≤ 15) }
{
    let mut prefix = Bytes::new(alloc);
    put_number(&mut prefix, of.number())?;
    prefix.append(&[index_number(kind)])?;
    if let IndexKind::Attr(attribute) = kind {
        put_number(&mut prefix, attribute)?;
    }
    Ok(prefix)
}

fn index_number(kind: IndexKind) -> u8
    ensures { result ≡ key.index_number kind }
{
    match kind {
        IndexKind::Id => 0,
        IndexKind::Z2 => 1,
        IndexKind::Z3 => 2,
        IndexKind::Xz2 => 3,
        IndexKind::Xz3 => 4,
        IndexKind::Attr(_) => 5,
    }
}

#[tactic(auto, unfolding(gm_keys::specs::Key::code_front))]
fn code_front(alloc: Global, front: &Front<'_>, code: u64) -> Result<Bytes, NoMemory>
    ensures { IfOk result (λ bytes. bytes
        ≡ key.code_front front.now.prefix.now front.now.shard code) }
{
    let mut bytes = Bytes::from_slice(alloc, front.prefix)?;
    bytes.append(&[front.shard])?;
    put_code(&mut bytes, code)?;
    Ok(bytes)
}

#[tactic(auto, unfolding(gm_keys::specs::Key::bin_front))]
fn bin_front(alloc: Global, front: &Front<'_>, bin_number: u16) -> Result<Bytes, NoMemory>
    ensures { IfOk result (λ bytes. bytes
        ≡ key.bin_front front.now.prefix.now front.now.shard bin_number) }
{
    let mut bytes = Bytes::from_slice(alloc, front.prefix)?;
    bytes.append(&[front.shard])?;
    put_number(&mut bytes, bin_number)?;
    Ok(bytes)
}

#[tactic(auto, using(crate::proofs::Fronts::bin_code_is))]
fn bin_code_front(
    alloc: Global,
    front: &Front<'_>,
    bin_number: u16,
    code: u64,
) -> Result<Bytes, NoMemory>
    ensures { IfOk result (λ bytes. bytes
        ≡ key.bin_code_front front.now.prefix.now front.now.shard bin_number code) }
{
    let mut bytes = bin_front(alloc, front, bin_number)?;
    put_code(&mut bytes, code)?;
    Ok(bytes)
}

fn put_number(front: &mut Bytes, number: u16) -> Result<(), NoMemory>
    ensures { OnOk result (front.new ≡ front.old ++ big_bytes 2 number) }
{
    front.append(&number_bytes(number))
}

fn number_bytes(number: u16) -> [u8; 2]
    ensures { result ≡ big_bytes 2 number }
{
    let mut two = [0u8; 2];
    BigEndian::write_u16(&mut two, number);
    two
}

fn put_code(front: &mut Bytes, code: u64) -> Result<(), NoMemory>
    ensures { OnOk result (front.new ≡ front.old ++ big_bytes 8 code) }
{
    front.append(&code_bytes(code))
}

fn code_bytes(code: u64) -> [u8; 8]
    ensures { result ≡ big_bytes 8 code }
{
    let mut eight = [0u8; 8];
    BigEndian::write_u64(&mut eight, code);
    eight
}

// The bytes of a bin's number and of a code in it.
fn in_bin_bytes(bin_number: u16, code: u64) -> [u8; 10]
    ensures { result ≡ big_bytes 2 bin_number ++ big_bytes 8 code }
{
    let [a, b] = number_bytes(bin_number);
    let [c, d, e, f, g, h, i, j] = code_bytes(code);
    [a, b, c, d, e, f, g, h, i, j]
}
