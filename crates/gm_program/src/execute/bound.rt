// The feature that an identifier is bound to.
ghost use Rattle.std.specs.Prelude.{◌≡◌, Some, IfOk};
ghost use Rattle.std.specs.Option.{ForSome};
ghost use Rattle.gm_base.specs.Counter.{capped_sum};
ghost use Rattle.gm_engine_rows.specs.State.{State, type_at, feature_at};
ghost use Rattle.gm_feature.specs.Feature.{Fits};
ghost use Rattle.gm_program.specs.Step.{row_of_one};
ghost use Rattle.gm_program.specs.Store.{Types, Holds};

use gm_base::{FeatureId, NoMemory};
use gm_engine_rows::rows_are_of_features;
use gm_feature::{Feature, from_bytes};
use gm_keys::{id_key, keys_are_laid_out, prefixes_tell_indexes_apart};
use gm_table::Sorted;
use gm_types::FeatureType;
use std::alloc::Global;

/// The feature of this type that the identifier is bound to, by one look-up in the table.
pub(super) fn bound<B: Sorted>(
    alloc: Global,
    of: &FeatureType,
    id: &FeatureId,
    table: &B,
    tally: &mut B::Tally,
) -> Result<Option<Feature>, NoMemory>
    ensures held { (s : State) (types : Types) → Holds s types (B.rows table.now)
        → type_at of.now.number s ≡ Some of.now
        → IfOk result (λ held. held ≡ feature_at of.now.number id.now s) }
    ensures fits { IfOk result (λ held. ForSome held (Fits of.now)) }
    ensures tally { (s : State) (types : Types) → Holds s types (B.rows table.now)
        → type_at of.now.number s ≡ Some of.now
        → IfOk result (λ held. B.Tally.number tally.new
        ≡ capped_sum (B.Tally.number tally.old) (row_of_one held)) }
{
    rows_are_of_features();
    keys_are_laid_out();
    prefixes_tell_indexes_apart();
    let key = id_key(alloc, of, id)?;
    match table.get(&key, tally) {
        Some(bytes) => from_bytes(alloc, of, bytes),
        None => Ok(None),
    }
}
