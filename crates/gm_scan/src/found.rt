// The features that a scan has found.
ghost use Rattle.std.specs.Prelude.{◌≡◌, []};
ghost use Rattle.gm_scan.specs.Found.{takes_row};
ghost use Rattle.gm_scan.specs.Held.{HasFeature};
ghost use Rattle.gm_scan.specs.Trial.{type_of};
ghost use Rattle.std.proofs.Common.{subst, sym};

use crate::trial::Trial;
use gm_base::{Items, NoMemory};
use gm_feature::FeatureList;
use gm_table::Visit;
use std::alloc::Global;

/// Keeps the features of the rows that it is handed of which the filter is true.
#[derive(Drop)]
pub(crate) struct Found<'a, 't> {
    trial: &'a Trial<'t>,
    features: FeatureList,
}

impl<'a, 't> Found<'a, 't> {
    pub(crate) fn new(alloc: Global, trial: &'a Trial<'t>) -> Found<'a, 't>
        ensures same { result.trial.now ≡ trial.now }
        ensures none { result.features ≡ [] }
    {
        Found {
            trial,
            features: Items::new(alloc),
        }
    }

    pub(crate) fn into_features(self) -> FeatureList
        ensures { result ≡ self.entry.features }
    {
        let Found { trial: _, features } = self;
        features
    }
}

impl<'a, 't> Visit for Found<'a, 't> {
    ghost admits = { λ it _ bytes. HasFeature (type_of it.trial.now) bytes };

    ghost takes = { takes_row };

    ghost keeps = { λ _ _ _ _ _ bytes _ _ takes has.
        subst (λ trial. HasFeature (type_of trial) bytes) (sym takes.same) has };

    fn row(&mut self, alloc: Global, _key: &[u8], bytes: &[u8]) -> Result<(), NoMemory> {
        if let Some(feature) = self.trial.passing(alloc, bytes)? {
            self.features.push(feature)?;
        }
        Ok(())
    }
}
