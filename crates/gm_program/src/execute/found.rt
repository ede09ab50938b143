// Features by their identifiers.
ghost use Rattle.std.specs.Prelude.{◌≡◌, [], map, IfOk, OnOk};
ghost use Rattle.gm_program.specs.Collecting.{collected, feature_of};

use gm_base::{FeatureId, Items, NoMemory};
use gm_feature::{Feature, FeatureList, Values};
use std::alloc::Global;
use std::collections::BTreeMap;

/// Features, each identifier once, in the order of the identifiers.
#[derive(Drop)]
pub(super) struct Found {
    pub(super) values: BTreeMap<FeatureId, Values>,
}

impl Found {
    pub(super) fn new(alloc: Global) -> Found
        ensures { result.values.entries ≡ [] }
    {
        Found {
            values: BTreeMap::new(alloc),
        }
    }

    /// Takes further features. One with an identifier that is there takes the place of the other.
    pub(super) fn take(&mut self, features: FeatureList) -> Result<(), NoMemory>
        ensures { OnOk result (self.new.values.entries
            ≡ collected self.old.values.entries features) }
    {
        'features: for feature in features.into_vec() {
            let Feature { id, values } = feature;
            self.values.insert(id, values)?;
        }
        Ok(())
    }

    pub(super) fn into_features(self, alloc: Global) -> Result<FeatureList, NoMemory>
        ensures { IfOk result (λ features. features ≡ map feature_of self.values.entries) }
    {
        let Found { values } = self;
        let mut features = Items::new(alloc);
        for (id, values) in values {
            features.push(Feature { id, values })?;
        }
        Ok(features)
    }
}
