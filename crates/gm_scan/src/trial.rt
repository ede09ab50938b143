// A filter that is tried on the rows of a type.
ghost use Rattle.std.specs.Prelude.{◌≡◌, IfOk};
ghost use Rattle.gm_feature.specs.declared.feature.Feature.{Feature};
ghost use Rattle.gm_filter.specs.Suitability.{Suits};
ghost use Rattle.gm_filter.specs.Tree.{tree};
ghost use Rattle.gm_filter.specs.Truth.{is_true};
ghost use Rattle.gm_scan.specs.Held.{AreBytesOf, HasFeature, passing};
ghost use Rattle.gm_scan.specs.Test.{tree_of};

use crate::test::{Test, passes, test_of};
use gm_base::NoMemory;
use gm_feature::{Feature, Stored, from_bytes};
use gm_filter::Filter;
use gm_types::FeatureType;
use std::alloc::Global;

/// The type of the rows, and the test of a filter that suits it.
#[derive(Drop)]
pub(crate) struct Trial<'a> {
    of: &'a FeatureType,
    test: Test<'a>,
    ghost suits: { Suits of.now (tree_of test) },
}

impl<'a> Trial<'a> {
    pub(crate) fn of(
        alloc: Global,
        of: &'a FeatureType,
        filter: &'a Filter,
    ) -> Result<Trial<'a>, NoMemory>
        requires { Suits of.now (tree filter.now) }
        ensures of_type { IfOk result (λ trial. trial.of.now ≡ of.now) }
        ensures of_filter { IfOk result (λ trial. tree_of trial.test ≡ tree filter.now) }
    {
        let test = test_of(alloc, of, filter)?;
        Ok(Trial { of, test })
    }

    /// Whether the filter is true of the feature that the bytes of a row are. The bytes are read in
    /// place.
    pub(crate) fn passes(&self, alloc: Global, bytes: &[u8]) -> Result<bool, NoMemory>
        requires { HasFeature self.now.of.now bytes.now }
        ensures { (feature : Feature) → AreBytesOf self.now.of.now bytes.now feature
            → IfOk result (λ b. b ≡ is_true feature (tree_of self.now.test)) }
    {
        passes(alloc, &self.test, &Stored { of: self.of, bytes })
    }

    /// That feature, where the filter is true of it.
    pub(crate) fn passing(&self, alloc: Global, bytes: &[u8]) -> Result<Option<Feature>, NoMemory>
        requires { HasFeature self.now.of.now bytes.now }
        ensures { (feature : Feature) → AreBytesOf self.now.of.now bytes.now feature
            → IfOk result (λ found. found ≡ passing (tree_of self.now.test) feature) }
    {
        if !self.passes(alloc, bytes)? {
            return Ok(None);
        }
        from_bytes(alloc, self.of, bytes)
    }

    /// Its identifier.
    pub(crate) fn id<'b>(&'b self, bytes: &'b [u8]) -> &'b [u8]
        ensures { (feature : Feature) → AreBytesOf self.now.of.now bytes.now feature
            → result.now ≡ feature.id }
    {
        let stored = Stored { of: self.of, bytes };
        stored.id()
    }
}
