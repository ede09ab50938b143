// The counter of steps.
ghost use Rattle.std.specs.Prelude.{◌≡◌, ◌<◌};
ghost use Rattle.gm_base.specs.Counter.{capped_sum};

use std::marker::Model;
use std::sync::ledger::{Blank, Book, Ledger, Share};

/// How many steps were taken. A step is a call of `child`. It takes no bytes, `tick` alone changes
/// it, and code that is generic over its ledger can make none.
#[derive(Drop)]
pub struct Steps<L: Ledger> {
    book: Book<L>,
    share: Share<L>,
}

impl<L: Ledger> Model for Steps<L> {
    ghost use Rattle.std.specs.Prelude.{ℕ, ◌<◌, ◌-◌, ◌^◌, min};

    ghost Value = { ℕ };

    ghost view = { λ s. min s.book.total (2 ^ 64 - 1) };

    ghost invariant = { λ s. 0 < s.share.parts };
}

impl<L: Ledger> Steps<L> {
    /// No step yet.
    pub fn new(blank: Blank) -> Steps<L>
        requires name { blank.name ≡ L.name }
        requires parts { blank.parts ≡ L.parts }
        requires some { 0 < L.parts }
        ensures { result ≡ 0 }
    {
        let (book, share) = blank.open();
        Steps { book, share }
    }

    /// One step more, up to the greatest u64. The `child` of a tree alone calls it.
    pub fn tick(&mut self)
        ensures { self.new ≡ capped_sum self.old 1 }
    {
        self.book.add(&mut self.share, 1);
    }
}
