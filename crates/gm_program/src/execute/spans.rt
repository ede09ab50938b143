// The spans of keys that are read for a part of a plan.
ghost use Rattle.std.specs.Prelude.{◌≤◌, IfOk};
ghost use Rattle.gm_table.specs.Sorted.{Rows};
ghost use Rattle.gm_engine_rows.specs.State.{State};
ghost use Rattle.gm_strategy.specs.Choice.{IsServed, chosen_of};
ghost use Rattle.gm_program.specs.Spans.{AreReadFor};
ghost use Rattle.gm_program.specs.Store.{IsTypeOf};

use gm_base::{NoMemory, SpanList};
use gm_engine_rows::rows_are_of_features;
use gm_feature::bytes_tell_features_apart;
use gm_plan::{
    byte_ranges, keys_are_inside, keys_inside_are_of_the_index, ranges, spans_are_apart,
};
use gm_scan::rows_hold_features;
use gm_strategy::Part;
use gm_table::rows_of_a_map;
use gm_types::{FeatureType, types_hold_together};
use std::alloc::Global;

/// The spans of a part, whose rows are of features of the type.
pub(super) fn spans_of(
    alloc: Global,
    of: &FeatureType,
    part: &Part,
    target: u32,
) -> Result<SpanList, NoMemory>
    requires served { IsServed of.now (chosen_of part.now) }
    requires least { 1 ≤ target }
    requires most { target ≤ 10000 }
    ensures { (s : State) (rows : Rows) → IsTypeOf s of.now rows
        → IfOk result (AreReadFor s of.now (chosen_of part.now) target rows) }
{
    keys_are_inside();
    keys_inside_are_of_the_index();
    spans_are_apart();
    rows_are_of_features();
    rows_hold_features();
    rows_of_a_map();
    bytes_tell_features_apart();
    types_hold_together(of);
    // The number of shards is from 1 to 127.
    let _shards = of.shards();
    let of_ranges = ranges(alloc, of, part.kind, &part.filter, target)?;
    byte_ranges(alloc, of, part.kind, &of_ranges)
}
