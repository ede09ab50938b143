// The counter that tables raise.
ghost use Rattle.std.specs.Prelude.{◌≡◌, ◌<◌, ◌^◌};
ghost use Rattle.gm_base.specs.Counter.{capped_sum};

use crate::Counter;

/// A counter of rows that can be made, raised and ended. Tables, the program's `main` and tests
/// alone do so.
#[derive(Debug)]
pub struct Tally {
    number: u64,
    ghost fits: { number < 2 ^ 64 },
}

impl Tally {
    ghost use Rattle.gm_base.specs.Tally.{tally_number};

    pub fn new() -> Tally
        ensures { tally_number result ≡ 0 }
    {
        Tally { number: 0 }
    }

    /// Raises the number by n, and stops at the greatest u64.
    pub fn add(&mut self, n: u64)
        ensures { tally_number self.new ≡ capped_sum (tally_number self.old) n }
    {
        self.number = self.number.saturating_add(n);
    }

    /// The number, with which the tally ends.
    pub fn close(self) -> u64
        ensures { result ≡ tally_number self }
    {
        let Tally { number } = self;
        number
    }
}

impl Counter for Tally {
    ghost number = { λ tally. tally.number };

    ghost fits = { λ tally. tally.fits };

    fn rows(&self) -> u64 {
        self.number
    }

    fn part(&self) -> Self {
        Tally::new()
    }

    fn join(&mut self, part: Self) {
        self.add(part.close());
    }
}
