// Where a script comes from.
ghost use Rattle.std.specs.Prelude.{◌≡◌, ◌≤◌, ◌<◌, ℕ, List, Option, length, take, IfOk, OnErr};
ghost use Rattle.std.specs.Option.{ForSome};
ghost use Rattle.gm_outside.specs.Failed.{Rose};
ghost use Rattle.gm_outside.specs.Source.{Gives};

use crate::Failed;

/// Gives bytes in order.
pub trait Source {
    /// The bytes that are left, where the source tells them.
    ghost left: { Self → Option (List ℕ) };

    /// How often it has failed, as far as a u64 counts.
    ghost faults: { Self → ℕ };

    /// Takes the next bytes that are left, and says how many. `Ok(0)` is the end: there is none.
    fn read(&mut self, into: &mut [u8]) -> Result<usize, Failed>
        requires { 0 < length into.old }
        ensures fits { IfOk result (λ n. n ≤ length into.old) }
        ensures bytes { IfOk result
            (λ n. ForSome (left self.old)
            (λ bytes. Gives bytes (take n into.new) (left self.new))) }
        ensures err { OnErr result (left self.new ≡ left self.old) }
        ensures cause { OnErr result (Rose (faults self.old) (faults self.new)) }
        ensures later { faults self.old ≤ faults self.new };
}
