// The line of a part of an explained plan.
ghost use Rattle.std.specs.Prelude.{◌≡◌, IfOk};
ghost use Rattle.gm_script.specs.Part.{part_text};

use crate::numbers::append_number;
use gm_base::{NoMemory, Text};
use gm_types::{FeatureType, IndexKind, index_name};
use std::alloc::Global;

/// The line of a part of a plan, without its end: its place from 1, its index and cost, in how many
/// shards it is read, and how many ranges it has in each.
pub fn part_line(
    alloc: Global,
    of: &FeatureType,
    place: usize,
    kind: IndexKind,
    cost: u8,
    shards: u8,
    runs: usize,
) -> Result<Text, NoMemory>
    ensures { IfOk result (λ line. line ≡ part_text of.now place kind cost shards runs) }
{
    let name = index_name(alloc, of, kind)?;
    let mut line = String::from_str(alloc, "part ")?;
    append_number(&mut line, place as u64)?;
    line.push_str(" ")?;
    line.push_str(name.as_str())?;
    line.push_str(" cost ")?;
    append_number(&mut line, u64::from(cost))?;
    line.push_str(" shards ")?;
    append_number(&mut line, u64::from(shards))?;
    line.push_str(" runs ")?;
    append_number(&mut line, runs as u64)?;
    Ok(Text::from_string(line))
}
