// The first bytes of a list, as one number.
ghost use Rattle.std.specs.Prelude.{◌≡◌, ℕ, List, IfSome, IsNone};
ghost use Rattle.std.specs.Ordering.{nat_cmp};
ghost use Rattle.std.specs.Cmp.Lexicographic.{slice_cmp};
ghost use Rattle.gm_base.specs.Front.{first_of, rest_of, IsFront, IsNumberOfFour};

use std::cmp::Ordering;

/// The first 16 bytes, as a number in base 256, with 0 for those that lack. Bytes are in the order
/// of these numbers where they differ.
pub fn first_bytes(bytes: &[u8]) -> u128
    ensures { IsFront result bytes.now }
{
    let (a, rest) = first_four(bytes);
    let (b, rest) = first_four(rest);
    let (c, rest) = first_four(rest);
    let (d, _) = first_four(rest);
    let high = u64::from(a) * 4_294_967_296 + u64::from(b);
    let low = u64::from(c) * 4_294_967_296 + u64::from(d);
    u128::from(high) * 18_446_744_073_709_551_616 + u128::from(low)
}

// The number of the first four bytes, with 0 for those that lack, and the others.
fn first_four(bytes: &[u8]) -> (u32, &[u8])
    ensures { IsNumberOfFour result.0 bytes.now result.1.now }
{
    match bytes {
        [a, b, c, d, rest @ ..] => (u32::from_be_bytes([*a, *b, *c, *d]), rest),
        _ => first_few(bytes),
    }
}

// The same, byte by byte.
fn first_few(bytes: &[u8]) -> (u32, &[u8])
    ensures { IsNumberOfFour result.0 bytes.now result.1.now }
{
    let (a, rest) = take_byte(bytes);
    let (b, rest) = take_byte(rest);
    let (c, rest) = take_byte(rest);
    let (d, rest) = take_byte(rest);
    (u32::from_be_bytes([a, b, c, d]), rest)
}

// The first byte, or 0, and the others.
fn take_byte(bytes: &[u8]) -> (u8, &[u8])
    ensures first { result.0 ≡ first_of bytes.now }
    ensures rest { result.1.now ≡ rest_of bytes.now }
{
    match bytes.split_first() {
        Some((first, rest)) => (*first, rest),
        None => (0, bytes),
    }
}

/// The order of bytes by the numbers of their first bytes. None where these are the same, so that
/// the bytes themselves are to be compared.
pub fn order_by_fronts(front: u128, other: u128) -> Option<Ordering>
    ensures order { IfSome result (λ order. (xs ys : List ℕ) → IsFront front xs → IsFront other ys
        → slice_cmp nat_cmp xs ys ≡ order) }
    ensures same { IsNone result → front ≡ other }
{
    if front < other {
        return Some(Ordering::Less);
    }
    if front > other {
        return Some(Ordering::Greater);
    }
    None
}
