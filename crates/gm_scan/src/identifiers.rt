// The identifiers that a filter names.
ghost use Rattle.std.specs.Prelude.{◌≡◌, List, ℕ, IfOk};
ghost use Rattle.std.specs.List.{list_any};
ghost use Rattle.std.specs.Str.{bytes_eq};
ghost use Rattle.gm_feature.specs.declared.feature.Feature.{Feature};
ghost use Rattle.gm_feature.specs.Stored.{IsStored};
ghost use Rattle.gm_scan.specs.Texts.{has_text};

use crate::texts::Texts;
use gm_base::{NoMemory, Text};
use gm_feature::Stored;
use std::alloc::Global;

/// Identifiers, as they are and sorted.
#[derive(Drop)]
pub(crate) struct Identifiers<'a> {
    plain: &'a [Text],
    sorted: Texts<'a>,
    ghost same: { (id : List ℕ) → has_text sorted id ≡ list_any (bytes_eq id) plain.now },
}

impl<'a> Identifiers<'a> {
    pub(crate) fn of(alloc: Global, plain: &'a [Text]) -> Result<Identifiers<'a>, NoMemory>
        ensures { IfOk result (λ identifiers. identifiers.plain.now ≡ plain.now) }
    {
        let mut sorted = Texts::new(alloc);
        'texts: for text in plain {
            sorted.add(text.as_bytes())?;
        }
        Ok(Identifiers { plain, sorted })
    }

    /// Whether the identifier of a stored feature is one of them.
    pub(crate) fn have_id_of(&self, stored: &Stored<'_>) -> bool
        ensures { (f : Feature) → IsStored stored.now f
            → result ≡ list_any (bytes_eq f.id) self.now.plain.now }
    {
        self.sorted.has(stored.id())
    }
}
