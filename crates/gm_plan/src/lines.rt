// Ranges as lines that explain them.
ghost use Rattle.std.specs.Prelude.{◌≡◌, ◌++◌, IfOk, OnOk};
ghost use Rattle.std.specs.Fmt.{decimal};
ghost use Rattle.std.specs.String.{string_bytes};
ghost use Rattle.hex.specs.Hex.{encode_lower};
ghost use Rattle.gm_plan.specs.Lines as spec;

use gm_base::{Bytes, Items, NoMemory, Text};
use gm_bounds::{KeyRanges, Range};
use std::alloc::Global;

/// A line for each range, whatever index it is of, without line ends. The shards are not told
/// apart.
pub fn range_lines(alloc: Global, of_ranges: &KeyRanges) -> Result<Items<Text>, NoMemory>
    ensures { IfOk result (λ lines. lines ≡ spec.lines_of of_ranges.now) }
{
    let mut lines = Vec::with_capacity(alloc, of_ranges.ranges.len())?;
    'each: for range in of_ranges.ranges.as_slice() {
        lines.push(line_of(alloc, range)?)?;
    }
    Ok(Items::from_vec(lines))
}

/// The same lines, each ended by 0x0A.
pub fn print_ranges(alloc: Global, of_ranges: &KeyRanges) -> Result<Text, NoMemory>
    ensures { IfOk result (λ text. text ≡ spec.text_of_lines (spec.lines_of of_ranges.now)) }
{
    let mut out = String::new(alloc);
    'each: for range in of_ranges.ranges.as_slice() {
        append_range(alloc, &mut out, range)?;
        out.push_str("\n")?;
    }
    Ok(Text::from_string(out))
}

fn line_of(alloc: Global, range: &Range) -> Result<Text, NoMemory>
    ensures { IfOk result (λ line. line ≡ spec.line_of_range range.now) }
{
    let mut out = String::new(alloc);
    append_range(alloc, &mut out, range)?;
    Ok(Text::from_string(out))
}

fn append_range(alloc: Global, out: &mut String, range: &Range) -> Result<(), NoMemory>
    ensures { OnOk result (string_bytes out.new
        ≡ string_bytes out.old ++ spec.line_of_range range.now) }
{
    match range {
        Range::Codes(low, high, level) => {
            out.push_str("run ")?;
            append_run(out, *low, *high, *level)
        }
        Range::InBin(bin_number, low, high, level) => {
            out.push_str("run ")?;
            append_number(out, u64::from(*bin_number))?;
            out.push_str(" ")?;
            append_run(out, *low, *high, *level)
        }
        Range::Span(first, last) => {
            out.push_str("span ")?;
            append_number(out, u64::from(*first))?;
            out.push_str(" ")?;
            append_number(out, u64::from(*last))
        }
        Range::Values(low, high) => append_values(alloc, out, low, high),
        Range::OneId(id) => {
            out.push_str("id ")?;
            out.push_str(id.as_str())?;
            Ok(())
        }
        Range::All => {
            out.push_str("all")?;
            Ok(())
        }
    }
}

// The ends of a run, and its level.
fn append_run(out: &mut String, low: u64, high: u64, level: u32) -> Result<(), NoMemory>
    ensures { OnOk result (string_bytes out.new
        ≡ string_bytes out.old ++ spec.run_text low high level) }
{
    append_number(out, low)?;
    out.push_str(" ")?;
    append_number(out, high)?;
    out.push_str(" level ")?;
    append_number(out, u64::from(level))
}

fn append_number(out: &mut String, number: u64) -> Result<(), NoMemory>
    ensures { OnOk result (string_bytes out.new ≡ string_bytes out.old ++ decimal number) }
{
    write!(out, "{number}")?;
    Ok(())
}

fn append_values(
    alloc: Global,
    out: &mut String,
    low: &Bytes,
    high: &Option<Bytes>,
) -> Result<(), NoMemory>
    ensures { OnOk result (string_bytes out.new
        ≡ string_bytes out.old ++ spec.values_text low.now high.now) }
{
    out.push_str("range ")?;
    append_low(alloc, out, low.as_slice())?;
    out.push_str(" ")?;
    match high {
        Some(high) => append_bytes(alloc, out, high.as_slice()),
        None => {
            out.push_str("-")?;
            Ok(())
        }
    }
}

fn append_low(alloc: Global, out: &mut String, low: &[u8]) -> Result<(), NoMemory>
    ensures { OnOk result (string_bytes out.new ≡ string_bytes out.old ++ spec.low_text low.now) }
{
    if low.is_empty() {
        out.push_str("-")?;
        return Ok(());
    }
    append_bytes(alloc, out, low)
}

// Bytes in lower hexadecimal.
fn append_bytes(alloc: Global, out: &mut String, bytes: &[u8]) -> Result<(), NoMemory>
    ensures { OnOk result (string_bytes out.new ≡ string_bytes out.old ++ encode_lower bytes.now) }
{
    let text = hex::encode(alloc, bytes)?;
    out.push_str(text.as_str())?;
    Ok(())
}
