// What takes the rows of a scan.
ghost use Rattle.std.specs.Prelude.{ℕ, List, Result, ⊤};
ghost use Rattle.gm_base.specs.declared.NoMemory.{NoMemory};

use gm_base::NoMemory;
use std::alloc::Global;

/// A visitor, to which a table hands rows, one a call.
pub trait Visit {
    /// Whether the row of this key and these bytes may be handed to this visitor.
    ghost admits: { Self → List ℕ → List ℕ → Type 0 };

    /// What a call does: the visitor before it, the key, the bytes, the answer, the visitor after
    /// it.
    ghost takes: { Self → List ℕ → List ℕ → Result ⊤ NoMemory → Self → Type 0 };

    /// Takes a row. Where it answers `NoMemory`, the scan stops.
    fn row(&mut self, alloc: Global, key: &[u8], bytes: &[u8]) -> Result<(), NoMemory>
        requires { admits self.old key.now bytes.now }
        ensures { takes self.old key.now bytes.now result self.new };

    /// A row that may be handed to the visitor before a call may be handed to it after the call.
    ghost keeps: { (before after : Self) (taken_key taken_bytes key bytes : List ℕ)
        (answer : Result ⊤ NoMemory) →
        admits before taken_key taken_bytes → takes before taken_key taken_bytes answer after →
        admits before key bytes → admits after key bytes };
}
