// The change of rows where several features of a type go or give their place to others.
ghost use Rattle.std.specs.Prelude.{◌≡◌, ◌++◌, All, true, map, IfOk};
ghost use Rattle.gm_table.specs.Batch.{are_distinct};
ghost use Rattle.gm_table.specs.Row.{key_of as key_of_row};
ghost use Rattle.gm_engine_rows.specs.Exchange.{IsExchange, owners_of, removes_of_all, puts_of_all};

use crate::batch_of;
use gm_base::{Items, NoMemory};
use gm_feature::Feature;
use gm_keys::keys_tell_features_apart;
use gm_table::Batch;
use gm_types::{FeatureType, types_hold_together};
use std::alloc::Global;

/// A feature that goes, or gives its place to another of the same identifier.
#[derive(Debug, Drop)]
pub struct Exchange {
    pub old: Feature,
    pub new: Option<Feature>,
}

/// The change that turns the rows of a state that has the old features into those of the state that
/// has the new ones in their places, as one batch.
pub fn batch_of_all(
    alloc: Global,
    of: &FeatureType,
    exchanges: &[Exchange],
) -> Result<Batch, NoMemory>
    requires fit { All (IsExchange of.now) exchanges.now }
    requires apart { are_distinct (owners_of exchanges.now) ≡ true }
    ensures removes { IfOk result (λ batch. batch.removes ≡ removes_of_all of.now exchanges.now) }
    ensures puts { IfOk result (λ batch. batch.puts ≡ puts_of_all of.now exchanges.now) }
    ensures distinct { IfOk result (λ batch.
        are_distinct (batch.removes ++ map key_of_row batch.puts) ≡ true) }
{
    types_hold_together(of);
    keys_tell_features_apart();
    let mut removes = Vec::new(alloc);
    let mut puts = Vec::new(alloc);
    'exchanges: for exchange in exchanges {
        let batch = batch_of(alloc, of, Some(&exchange.old), exchange.new.as_ref())?;
        removes.append(&mut batch.removes.into_vec())?;
        puts.append(&mut batch.puts.into_vec())?;
    }
    Ok(Batch {
        removes: Items::from_vec(removes),
        puts: Items::from_vec(puts),
    })
}
