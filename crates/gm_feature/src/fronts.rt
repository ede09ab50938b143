// Fields at the front of bytes, and the bytes behind them. Of bytes that spell no such field
// nothing is said.
ghost use Rattle.std.specs.Prelude.{◌≡◌, ◌≤◌, ◌*◌, length};
ghost use Rattle.std.specs.Int.{w16, w32, w64};
ghost use Rattle.std.specs.Option.{ForSome};
ghost use Rattle.gm_feature.specs.Reader.{number_from, signed_from, string_from};
ghost use Rattle.gm_feature.specs.Reader.{count_from, point_from};

use gm_geom::Point;

fn length_at(bytes: &[u8]) -> (u16, &[u8])
    ensures { ForSome (number_from w16 bytes.now) (λ x. (result.0 ≡ x.0) × (result.1.now ≡ x.1)) }
{
    if bytes.len() < 2 {
        return (0, bytes);
    }
    let (front, rest) = bytes.split_at(2);
    (u16::from_be_bytes([front[0], front[1]]), rest)
}

fn number_at(bytes: &[u8]) -> (u32, &[u8])
    ensures { ForSome (number_from w32 bytes.now) (λ x. (result.0 ≡ x.0) × (result.1.now ≡ x.1)) }
{
    if bytes.len() < 4 {
        return (0, bytes);
    }
    let (front, rest) = bytes.split_at(4);
    let number = u32::from_be_bytes([front[0], front[1], front[2], front[3]]);
    (number, rest)
}

#[tactic(auto, unfolding(crate::specs::Reader::signed_from))]
pub fn integer_at(bytes: &[u8]) -> (i32, &[u8])
    ensures { ForSome (signed_from w32 bytes.now) (λ x. (result.0 ≡ x.0) × (result.1.now ≡ x.1)) }
{
    if bytes.len() < 4 {
        return (0, bytes);
    }
    let (front, rest) = bytes.split_at(4);
    let number = i32::from_be_bytes([front[0], front[1], front[2], front[3]]);
    (number, rest)
}

#[tactic(auto, unfolding(crate::specs::Reader::signed_from))]
pub fn long_at(bytes: &[u8]) -> i64
    ensures { ForSome (signed_from w64 bytes.now) (λ x. result ≡ x.0) }
{
    if bytes.len() < 8 {
        return 0;
    }
    let (front, _) = bytes.split_at(8);
    i64::from_be_bytes([
        front[0], front[1], front[2], front[3], front[4], front[5], front[6], front[7],
    ])
}

/// The bytes behind two bytes of length.
#[tactic(auto, unfolding(crate::specs::Reader::string_from))]
pub fn short_string_at(bytes: &[u8]) -> (&[u8], &[u8])
    ensures { ForSome (string_from w16 bytes.now)
        (λ x. (result.0.now ≡ x.0) × (result.1.now ≡ x.1)) }
{
    let (length, rest) = length_at(bytes);
    let length = length as usize;
    if rest.len() < length {
        return (bytes, bytes);
    }
    rest.split_at(length)
}

/// The bytes behind four bytes of length.
#[tactic(auto, unfolding(crate::specs::Reader::string_from))]
pub fn string_at(bytes: &[u8]) -> (&[u8], &[u8])
    ensures { ForSome (string_from w32 bytes.now)
        (λ x. (result.0.now ≡ x.0) × (result.1.now ≡ x.1)) }
{
    let (length, rest) = number_at(bytes);
    let length = length as usize;
    if rest.len() < length {
        return (bytes, bytes);
    }
    rest.split_at(length)
}

/// A count of members that have at least so many bytes each, and 0 where there are fewer bytes.
#[tactic(auto, unfolding(crate::specs::Reader::count_from))]
pub fn count_at(least: u8, bytes: &[u8]) -> (u32, &[u8])
    ensures count { ForSome (count_from least bytes.now)
        (λ x. (result.0 ≡ x.0) × (result.1.now ≡ x.1)) }
    ensures held { result.0 * least ≤ length result.1.now }
{
    let (count, rest) = number_at(bytes);
    if (rest.len() as u64) < u64::from(count) * u64::from(least) {
        return (0, rest);
    }
    (count, rest)
}

#[tactic(auto, unfolding(crate::specs::Reader::point_from))]
pub fn point_at(bytes: &[u8]) -> (Point, &[u8])
    ensures { ForSome (point_from bytes.now) (λ x. (result.0 ≡ x.0) × (result.1.now ≡ x.1)) }
{
    let (x, rest) = integer_at(bytes);
    let (y, rest) = integer_at(rest);
    (Point { x, y }, rest)
}
