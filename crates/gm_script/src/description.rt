// How a type is described.
ghost use Rattle.std.specs.Prelude.{◌≡◌, ◌++◌, map, IfOk, OnOk};
ghost use Rattle.std.specs.String.{string_bytes};
ghost use Rattle.gm_script.specs.Description as spec;

use crate::numbers::append_number;
use gm_base::{Items, NoMemory, Text};
use gm_calendar::Period;
use gm_filter::TextList;
use gm_types::{FeatureType, IndexKind, enabled_indexes, index_name, print_spec};
use std::alloc::Global;

/// The canonical text of a type, and a line for each enabled index in their order, without line
/// ends.
pub fn describe(alloc: Global, of: &FeatureType) -> Result<TextList, NoMemory>
    ensures { IfOk result (λ lines. lines ≡ spec.description_of of.now) }
{
    let indexes = enabled_indexes(alloc, of)?;
    let mut lines = Items::new(alloc);
    lines.push(print_spec(alloc, of)?)?;
    append_lines(alloc, &mut lines, of, indexes.as_slice())?;
    Ok(lines)
}

fn append_lines(
    alloc: Global,
    lines: &mut TextList,
    of: &FeatureType,
    indexes: &[IndexKind],
) -> Result<(), NoMemory>
    ensures { OnOk result (lines.new ≡ lines.old ++ map (spec.index_line of.now) indexes.now) }
{
    'indexes: for kind in indexes {
        lines.push(index_line(alloc, of, *kind)?)?;
    }
    Ok(())
}

// `index`, its name and what it is set to.
fn index_line(alloc: Global, of: &FeatureType, kind: IndexKind) -> Result<Text, NoMemory>
    ensures { IfOk result (λ line. line ≡ spec.index_line of.now kind) }
{
    let name = index_name(alloc, of, kind)?;
    let mut line = String::from_str(alloc, "index ")?;
    line.push_str(name.as_str())?;
    append_settings(&mut line, of, kind)?;
    Ok(Text::from_string(line))
}

fn append_settings(line: &mut String, of: &FeatureType, kind: IndexKind) -> Result<(), NoMemory>
    ensures { OnOk result (string_bytes line.new
        ≡ string_bytes line.old ++ spec.settings_text of.now kind) }
{
    match kind {
        IndexKind::Id => Ok(()),
        IndexKind::Z2 => append_bits(line, of, of.z2_bits()),
        IndexKind::Z3 => append_bits_by_time(line, of, of.z3_bits()),
        IndexKind::Xz2 => append_precision(line, of),
        IndexKind::Xz3 => append_precision_by_time(line, of),
        IndexKind::Attr(_) => Ok(()),
    }
}

fn append_bits(line: &mut String, of: &FeatureType, bits: u32) -> Result<(), NoMemory>
    ensures { OnOk result (string_bytes line.new
        ≡ string_bytes line.old ++ (spec.bits_text bits ++ spec.shards_text of.now)) }
{
    line.push_str(" bits ")?;
    append_number(line, u64::from(bits))?;
    append_shards(line, of)
}

fn append_bits_by_time(line: &mut String, of: &FeatureType, bits: u32) -> Result<(), NoMemory>
    ensures { OnOk result (string_bytes line.new ≡ string_bytes line.old
        ++ (spec.bits_text bits ++ (spec.period_text of.now ++ spec.shards_text of.now))) }
{
    line.push_str(" bits ")?;
    append_number(line, u64::from(bits))?;
    append_period(line, of)?;
    append_shards(line, of)
}

fn append_precision(line: &mut String, of: &FeatureType) -> Result<(), NoMemory>
    ensures { OnOk result (string_bytes line.new
        ≡ string_bytes line.old ++ (spec.precision_text of.now ++ spec.shards_text of.now)) }
{
    line.push_str(" precision ")?;
    append_number(line, u64::from(of.precision()))?;
    append_shards(line, of)
}

fn append_precision_by_time(line: &mut String, of: &FeatureType) -> Result<(), NoMemory>
    ensures { OnOk result (string_bytes line.new ≡ string_bytes line.old
        ++ (spec.precision_text of.now ++ (spec.period_text of.now ++ spec.shards_text of.now))) }
{
    line.push_str(" precision ")?;
    append_number(line, u64::from(of.precision()))?;
    append_period(line, of)?;
    append_shards(line, of)
}

fn append_period(line: &mut String, of: &FeatureType) -> Result<(), NoMemory>
    ensures { OnOk result (string_bytes line.new
        ≡ string_bytes line.old ++ spec.period_text of.now) }
{
    line.push_str(" period ")?;
    line.push_str(period_name(of.period()))?;
    Ok(())
}

fn append_shards(line: &mut String, of: &FeatureType) -> Result<(), NoMemory>
    ensures { OnOk result (string_bytes line.new
        ≡ string_bytes line.old ++ spec.shards_text of.now) }
{
    line.push_str(" shards ")?;
    append_number(line, u64::from(of.shards()))?;
    Ok(())
}

fn period_name(period: Period) -> &'static str
    ensures { result.now ≡ spec.period_name period }
{
    match period {
        Period::Day => "day",
        Period::Week => "week",
        Period::Month => "month",
        Period::Year => "year",
    }
}
