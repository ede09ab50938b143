// The change of rows where a feature comes, goes or takes the place of another.
ghost use Rattle.std.specs.Prelude.{◌≡◌, ◌++◌, not, filter};
ghost use Rattle.std.specs.Prelude.{map, Some, None, IsTrue, IfOk};
ghost use Rattle.std.specs.Option.{option_copied, ForSome};
ghost use Rattle.gm_table.specs.Batch.{are_distinct, has_key as is_among};
ghost use Rattle.gm_table.specs.Row.{key_of as key_of_row};
ghost use Rattle.gm_feature.specs.Feature.{Fits};
ghost use Rattle.gm_engine_rows.specs.Change.{keys_at as all_keys_at, removes_of};
ghost use Rattle.gm_engine_rows.specs.Change.{puts_of, rows_with};

use gm_base::{Bytes, Items, NoMemory};
use gm_feature::{Feature, to_bytes};
use gm_keys::{keys_of, keys_tell_features_apart};
use gm_table::{Batch, KeyList, Row, RowList};
use gm_types::{FeatureType, types_hold_together};
use std::alloc::Global;

/// The change that turns the rows of a state in which an identifier has the old feature, or none,
/// into those of the state in which it has the new one, or none. Each key of the new feature is
/// put, since its bytes may differ; of the keys of the old one those are removed that the new one
/// has not.
pub fn batch_of(
    alloc: Global,
    of: &FeatureType,
    old: Option<&Feature>,
    new: Option<&Feature>,
) -> Result<Batch, NoMemory>
    requires old { ForSome (option_copied old) (Fits of.now) }
    requires new { ForSome (option_copied new) (Fits of.now) }
    ensures removes { IfOk result (λ batch. batch.removes
        ≡ removes_of of.now (option_copied old.entry) (option_copied new.entry)) }
    ensures puts { IfOk result (λ batch. batch.puts ≡ puts_of of.now (option_copied new.entry)) }
    ensures distinct { IfOk result
        (λ batch. IsTrue (are_distinct (batch.removes ++ map key_of_row batch.puts))) }
{
    types_hold_together(of);
    keys_tell_features_apart();
    let olds = keys_at(alloc, of, old)?;
    match new {
        Some(feature) => {
            let news = keys_of(alloc, of, feature)?;
            let bytes = to_bytes(alloc, of, feature)?;
            Ok(Batch {
                removes: without(olds, news.as_slice()),
                puts: rows_at(alloc, news, &bytes)?,
            })
        }
        None => Ok(Batch {
            removes: olds,
            puts: Items::new(alloc),
        }),
    }
}

// The keys of a feature, if there is one.
fn keys_at(alloc: Global, of: &FeatureType, feature: Option<&Feature>) -> Result<KeyList, NoMemory>
    requires { ForSome (option_copied feature) (Fits of.now) }
    ensures { IfOk result (λ keys. keys ≡ all_keys_at of.now (option_copied feature.entry)) }
{
    match feature {
        Some(feature) => keys_of(alloc, of, feature),
        None => Ok(Items::new(alloc)),
    }
}

// Those of the first keys that are none of the others.
fn without(keys: KeyList, others: &[Bytes]) -> KeyList
    ensures { result ≡ filter (λ key. not (is_among key others.now)) keys }
{
    let mut kept = keys.into_vec();
    kept.retain(|key| !has_key(key, others));
    Items::from_vec(kept)
}

// Whether the key is one of these.
fn has_key(key: &Bytes, keys: &[Bytes]) -> bool
    ensures { result ≡ is_among key.now keys.now }
{
    keys.iter().any(|other| key.cmp(other).is_eq())
}

// A row of the same bytes for each key.
fn rows_at(alloc: Global, keys: KeyList, bytes: &Bytes) -> Result<RowList, NoMemory>
    ensures { IfOk result (λ rows. rows ≡ rows_with keys bytes.now) }
{
    let mut rows = Vec::with_capacity(alloc, keys.len())?;
    'keys: for key in keys.into_vec() {
        let bytes = bytes.copy(alloc)?;
        rows.push(Row { key, bytes })?;
    }
    Ok(Items::from_vec(rows))
}
