// The counter of rows.
ghost use Rattle.std.specs.Prelude.{◌≡◌, ◌<◌, ◌^◌, ℕ};
ghost use Rattle.gm_base.specs.Counter.{capped_sum};

/// A number of rows, which a table raises by each row that it hands out. Code that is generic over
/// a counter has none but those that it was lent and their parts. It can read them, take parts and
/// join them; it cannot make one, raise one by itself, or drop one. No call takes memory.
pub trait Counter {
    /// The number.
    ghost number: { Self → ℕ };

    fn rows(&self) -> u64
        ensures { result ≡ number self.now };

    /// A further counter, at 0, which has to be joined again.
    fn part(&self) -> Self
        ensures { number result ≡ 0 };

    /// Raises the number by that of the part, and stops at the greatest u64.
    fn join(&mut self, part: Self)
        ensures { number self.new ≡ capped_sum (number self.old) (number part) };

    /// A number of rows is a u64.
    ghost fits: { (counter : Self) → number counter < 2 ^ 64 };
}
