// The rows that a scan has found, as they stand.
ghost use Rattle.std.specs.Prelude.{◌≡◌};
ghost use Rattle.gm_feature.specs.declared.feature.Feature.{Feature};
ghost use Rattle.gm_feature.specs.Writer.{feature_bytes};
ghost use Rattle.gm_scan.specs.FoundRows.{kept_of};
ghost use Rattle.gm_scan.specs.Held.{HasFeature};
ghost use Rattle.gm_scan.specs.Kept.{takes_row};
ghost use Rattle.gm_scan.specs.Trial.{type_of};
ghost use Rattle.std.proofs.Common.{subst, sym};

use crate::found_rows::{FoundRows, Keeping};
use crate::trial::Trial;
use gm_base::NoMemory;
use gm_table::Visit;
use std::alloc::Global;

/// Keeps, in place of features, the rows that it is handed of whose features the filter is true.
#[derive(Drop)]
pub(crate) struct Kept<'a, 't> {
    trial: &'a Trial<'t>,
    keeping: Keeping,
    rows: FoundRows,
}

impl<'a, 't> Kept<'a, 't> {
    /// It goes on behind the rows that were kept before.
    pub(crate) fn behind(trial: &'a Trial<'t>, keeping: Keeping, rows: FoundRows) -> Kept<'a, 't>
        ensures same { result.trial.now ≡ trial.now }
        ensures way { result.keeping ≡ keeping }
        ensures before { result.rows ≡ rows }
    {
        Kept {
            trial,
            keeping,
            rows,
        }
    }

    pub(crate) fn into_rows(self) -> FoundRows
        ensures { result ≡ self.entry.rows }
    {
        let Kept {
            trial: _,
            keeping: _,
            rows,
        } = self;
        rows
    }
}

impl<'a, 't> Visit for Kept<'a, 't> {
    ghost admits = { λ it _ bytes. HasFeature (type_of it.trial.now) bytes };

    ghost takes = { takes_row };

    ghost keeps = { λ _ _ _ _ _ bytes _ _ takes has.
        subst (λ trial. HasFeature (type_of trial) bytes) (sym takes.same) has };

    fn row(&mut self, alloc: Global, _key: &[u8], bytes: &[u8]) -> Result<(), NoMemory> {
        if !self.trial.passes(alloc, bytes)? {
            return Ok(());
        }
        let id = self.trial.id(bytes);
        self.rows.push(id, kept_bytes(self.keeping, bytes))
    }
}

// All bytes of a row, or none of them.
fn kept_bytes(keeping: Keeping, bytes: &[u8]) -> &[u8]
    ensures { (feature : Feature) → bytes.now ≡ feature_bytes feature
        → result.now ≡ (kept_of keeping feature).1 }
{
    match keeping {
        Keeping::Rows => bytes,
        Keeping::Ids => &[],
    }
}
