// An end of a span, which keys are compared with.
ghost use Rattle.std.specs.Prelude.{◌≡◌};
ghost use Rattle.std.specs.Ordering.{nat_cmp, is_le};
ghost use Rattle.std.specs.Cmp.Lexicographic.{slice_cmp};
ghost use Rattle.gm_base.specs.Front.{IsFront};

use gm_base::{Bytes, first_bytes, order_by_fronts};
use std::marker::Model;

/// A key that is lent, with the number of its first bytes. It is seen as its bytes.
#[derive(Drop)]
pub(crate) struct End<'a> {
    front: u128,
    bytes: &'a [u8],
}

impl<'a> Model for End<'a> {
    ghost use Rattle.std.specs.Prelude.{ℕ, List};
    ghost use Rattle.gm_base.specs.Front.{IsFront};

    ghost Value = { List ℕ };

    ghost view = { λ end. end.bytes.now };

    ghost invariant = { λ end. IsFront end.front end.bytes.now };
}

impl<'a> End<'a> {
    pub(crate) fn of(bytes: &'a [u8]) -> End<'a>
        ensures { result ≡ bytes.now }
    {
        End {
            front: first_bytes(bytes),
            bytes,
        }
    }

    /// A key whose number is at hand.
    pub(crate) fn of_key(key: &'a Bytes) -> End<'a>
        ensures { result ≡ key.now }
    {
        End {
            front: key.front(),
            bytes: key.as_slice(),
        }
    }

    /// The number of its first bytes.
    pub(crate) fn front(&self) -> u128
        ensures { IsFront result self.now }
    {
        self.front
    }

    pub(crate) fn bytes(&self) -> &[u8]
        ensures { result.now ≡ self.now }
    {
        self.bytes
    }

    /// Whether the key is at this end or after it. Where the first bytes differ, the others are not
    /// looked at.
    pub(crate) fn is_reached(&self, key: &Bytes) -> bool
        ensures { result ≡ is_le (slice_cmp nat_cmp self.now key.now) }
    {
        if let Some(order) = order_by_fronts(self.front, key.front()) {
            return order.is_le();
        }
        self.bytes.cmp(&key.as_slice()).is_le()
    }

    /// Whether the other end is at this one or after it, likewise.
    pub(crate) fn is_up_to(&self, other: &End<'_>) -> bool
        ensures { result ≡ is_le (slice_cmp nat_cmp self.now other.now) }
    {
        if let Some(order) = order_by_fronts(self.front, other.front()) {
            return order.is_le();
        }
        self.bytes.cmp(&other.bytes()).is_le()
    }
}
