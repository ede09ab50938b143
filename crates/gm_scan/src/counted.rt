// The number of the rows that match.
ghost use Rattle.std.specs.Prelude.{◌≡◌};
ghost use Rattle.gm_scan.specs.Counted.{takes_row};
ghost use Rattle.gm_scan.specs.Held.{HasFeature};
ghost use Rattle.gm_scan.specs.Trial.{type_of};
ghost use Rattle.std.proofs.Common.{subst, sym};

use crate::trial::Trial;
use gm_base::NoMemory;
use gm_table::Visit;
use std::alloc::Global;

/// Counts the rows that it is handed of whose features the filter is true, up to the greatest u64.
#[derive(Drop)]
pub(crate) struct Counted<'a, 't> {
    trial: &'a Trial<'t>,
    matched: u64,
}

impl<'a, 't> Counted<'a, 't> {
    pub(crate) fn new(trial: &'a Trial<'t>) -> Counted<'a, 't>
        ensures same { result.trial.now ≡ trial.now }
        ensures none { result.matched ≡ 0 }
    {
        Counted { trial, matched: 0 }
    }

    pub(crate) fn matched(&self) -> u64
        ensures { result ≡ self.now.matched }
    {
        self.matched
    }
}

impl<'a, 't> Visit for Counted<'a, 't> {
    ghost admits = { λ it _ bytes. HasFeature (type_of it.trial.now) bytes };

    ghost takes = { takes_row };

    ghost keeps = { λ _ _ _ _ _ bytes _ _ takes has.
        subst (λ trial. HasFeature (type_of trial) bytes) (sym takes.same) has };

    fn row(&mut self, alloc: Global, _key: &[u8], bytes: &[u8]) -> Result<(), NoMemory> {
        if self.trial.passes(alloc, bytes)? {
            self.matched = self.matched.saturating_add(1);
        }
        Ok(())
    }
}
