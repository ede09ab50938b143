// The end of the strings that begin with given bytes.
ghost use Rattle.std.specs.Prelude.{◌≡◌, ◌<◌, ◌+◌, ◌-◌, ◌≢◌, [], length, slice_index, ◌∷◌};
ghost use Rattle.std.specs.Prelude.{◌++◌, ℕ, List, All, Some, None, nat_eq, take, replicate, IfOk};
ghost use Rattle.std.specs.List.{starts_with};
ghost use Rattle.std.specs.Ordering.{nat_cmp, is_le};
ghost use Rattle.std.specs.Cmp.Lexicographic.{slice_cmp};
ghost use Rattle.gm_lexi.specs.Ends.{after_of, is_before, is_from_to};

use gm_base::{Bytes, NoMemory};
use std::alloc::Global;

/// The least bytes that are above all that begin with these: without the bytes 0xFF at their end,
/// the last byte left being raised by one. None where every byte is 0xFF.
pub fn after(alloc: Global, bytes: &[u8]) -> Result<Option<Bytes>, NoMemory>
    ensures { IfOk result (λ end. end ≡ after_of bytes.now) }
{
    match without_full(bytes) {
        [] => Ok(None),
        [front @ .., last] => {
            let mut raised = Vec::with_capacity(alloc, front.len() + 1)?;
            raised.extend_from_slice(front)?;
            raised.push(*last + 1)?;
            Ok(Some(Bytes::from_vec(raised)))
        }
    }
}

// The bytes without those of 0xFF at their end.
fn without_full(bytes: &[u8]) -> &[u8]
    ensures same { after_of result.now ≡ after_of bytes.now }
    ensures last { 0 < length result.now → slice_index result.now (length result.now - 1) < 255 }
{
    let mut end = bytes.len();
    while end > 0 && bytes[end - 1] == 0xFF {
        end -= 1;
    }
    &bytes[..end]
}

/// Bytes are at least `bytes` and below the end of these exactly where they begin with `bytes`. No
/// number among them that is looked at is above 255.
pub fn begins_where_within()
    ensures { (bytes other : List ℕ) → All (λ byte. byte < 256) (take (length bytes) other)
        → starts_with nat_eq other bytes ≡ is_from_to bytes (after_of bytes) other }
{}

/// The end of bytes, by what stands before those of 0xFF at their end.
pub fn raised_as_told()
    ensures some { (front : List ℕ) (byte full : ℕ) → byte ≢ 255
        → after_of (front ++ byte ∷ replicate full 255) ≡ Some (front ++ (byte + 1) ∷ []) }
    ensures none { (full : ℕ) → after_of (replicate full 255) ≡ None }
{}

/// The front of other bytes that is as long as a bound tells on which side of it they lie: whether
/// they are at least `low`, and whether they are below the end of those that begin with `high`.
pub fn fronts_decide()
    ensures low { (low other : List ℕ) → is_le (slice_cmp nat_cmp low other)
        ≡ is_le (slice_cmp nat_cmp low (take (length low) other)) }
    ensures high { (high other : List ℕ) → All (λ byte. byte < 256) (take (length high) other)
        → is_before (after_of high) other
        ≡ is_le (slice_cmp nat_cmp (take (length high) other) high) }
{}
