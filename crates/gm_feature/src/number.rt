// Numbers, counts and strings of bytes.
ghost use Rattle.std.specs.Int.{w16, w32, w64};
ghost use Rattle.gm_feature.specs.Reader.{Gives, number_from, signed_from};
ghost use Rattle.gm_feature.specs.Reader.{string_from, count_from};

use crate::halt::Halt;

pub fn u16_of(bytes: &[u8]) -> Result<(u16, &[u8]), Halt>
    ensures { Gives (λ x. (x.0, x.1.now)) result (number_from w16 bytes.now) }
{
    if bytes.len() < 2 {
        return Err(Halt::Refused);
    }
    let (front, rest) = bytes.split_at(2);
    Ok((u16::from_be_bytes([front[0], front[1]]), rest))
}

pub fn u32_of(bytes: &[u8]) -> Result<(u32, &[u8]), Halt>
    ensures { Gives (λ x. (x.0, x.1.now)) result (number_from w32 bytes.now) }
{
    if bytes.len() < 4 {
        return Err(Halt::Refused);
    }
    let (front, rest) = bytes.split_at(4);
    let number = u32::from_be_bytes([front[0], front[1], front[2], front[3]]);
    Ok((number, rest))
}

#[tactic(auto, unfolding(crate::specs::Reader::signed_from))]
pub fn i32_of(bytes: &[u8]) -> Result<(i32, &[u8]), Halt>
    ensures { Gives (λ x. (x.0, x.1.now)) result (signed_from w32 bytes.now) }
{
    if bytes.len() < 4 {
        return Err(Halt::Refused);
    }
    let (front, rest) = bytes.split_at(4);
    let number = i32::from_be_bytes([front[0], front[1], front[2], front[3]]);
    Ok((number, rest))
}

#[tactic(auto, unfolding(crate::specs::Reader::signed_from))]
pub fn i64_of(bytes: &[u8]) -> Result<(i64, &[u8]), Halt>
    ensures { Gives (λ x. (x.0, x.1.now)) result (signed_from w64 bytes.now) }
{
    if bytes.len() < 8 {
        return Err(Halt::Refused);
    }
    let (front, rest) = bytes.split_at(8);
    let number = i64::from_be_bytes([
        front[0], front[1], front[2], front[3], front[4], front[5], front[6], front[7],
    ]);
    Ok((number, rest))
}

/// The bytes behind two bytes of length.
#[tactic(auto, unfolding(crate::specs::Reader::string_from))]
pub fn short_string_of(bytes: &[u8]) -> Result<(&[u8], &[u8]), Halt>
    ensures { Gives (λ x. (x.0.now, x.1.now)) result (string_from w16 bytes.now) }
{
    let (length, rest) = u16_of(bytes)?;
    let length = length as usize;
    if rest.len() < length {
        return Err(Halt::Refused);
    }
    Ok(rest.split_at(length))
}

/// The bytes behind four bytes of length.
#[tactic(auto, unfolding(crate::specs::Reader::string_from))]
pub fn string_of(bytes: &[u8]) -> Result<(&[u8], &[u8]), Halt>
    ensures { Gives (λ x. (x.0.now, x.1.now)) result (string_from w32 bytes.now) }
{
    let (length, rest) = u32_of(bytes)?;
    let length = length as usize;
    if rest.len() < length {
        return Err(Halt::Refused);
    }
    Ok(rest.split_at(length))
}

/// A count of members that have at least so many bytes each, where there are that many bytes.
#[tactic(auto, unfolding(crate::specs::Reader::count_from))]
pub fn count_of(least: u8, bytes: &[u8]) -> Result<(u32, &[u8]), Halt>
    ensures { Gives (λ x. (x.0, x.1.now)) result (count_from least bytes.now) }
{
    let (count, rest) = u32_of(bytes)?;
    if (rest.len() as u64) < u64::from(count) * u64::from(least) {
        return Err(Halt::Refused);
    }
    Ok((count, rest))
}
