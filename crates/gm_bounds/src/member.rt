// What the list of a bound has as members.
ghost use Rattle.std.specs.Prelude.{◌≡◌, Bool, IfOk};

use gm_base::NoMemory;
use std::alloc::Global;

/// A box, an interval or a range.
pub trait Member: Drop {
    /// What lies in both.
    ghost met: { Self → Self → Self };

    /// The least that holds both.
    ghost joined: { Self → Self → Self };

    /// Nothing lies in it.
    ghost is_void: { Self → Bool };

    fn meet(&self, alloc: Global, other: &Self) -> Result<Self, NoMemory>
        ensures { IfOk result (λ both. both ≡ met self.now other.now) };

    fn join(self, other: Self) -> Self
        ensures { result ≡ joined self other };

    fn is_empty(&self) -> bool
        ensures { result ≡ is_void self.now };
}
