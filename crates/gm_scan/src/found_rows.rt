// Rows that scans have found, as they stand.
ghost use Rattle.std.specs.Prelude.{◌≡◌, ◌<◌, ◌++◌, ◌∷◌, [], length, slice_index_or, OnOk, OnErr};
ghost use Rattle.gm_scan.specs.FoundRows.{FoundRow};

use gm_base::{NoMemory, SpanList};
use std::alloc::Global;
use std::marker::Model;

/// What is kept of a feature that is found.
#[derive(Clone, Copy, Debug)]
pub enum Keeping {
    /// Its identifier and its bytes.
    Rows,

    /// Its identifier, and no bytes.
    Ids,
}

/// Pairs of the identifier of a feature and bytes, all in one buffer. Contracts see their list.
#[derive(Debug, Drop)]
pub struct FoundRows {
    pairs: SpanList,
}

impl Model for FoundRows {
    ghost use Rattle.std.specs.Prelude.{ℕ, List};

    ghost Value = { List (List ℕ × List ℕ) };

    ghost view = { λ it. it.pairs };
}

impl FoundRows {
    pub fn new(alloc: Global) -> FoundRows
        ensures { result ≡ [] }
    {
        FoundRows {
            pairs: SpanList::new(alloc),
        }
    }

    /// The number of pairs.
    pub fn len(&self) -> usize
        ensures { result ≡ length self.now }
    {
        self.pairs.len()
    }

    /// The identifier and the bytes of a pair. No memory.
    pub fn get(&self, i: usize) -> (&[u8], &[u8])
        requires { i < length self.now }
        ensures { let row : FoundRow = (result.0.now, result.1.now) in row
            ≡ slice_index_or self.now i row }
    {
        self.pairs.get(i)
    }

    pub(crate) fn push(&mut self, id: &[u8], bytes: &[u8]) -> Result<(), NoMemory>
        ensures ok { OnOk result (self.new ≡ self.old ++ (id.now, bytes.now) ∷ []) }
        ensures err { OnErr result (self.new ≡ self.old) }
    {
        self.pairs.push(&[id], &[bytes])
    }
}
