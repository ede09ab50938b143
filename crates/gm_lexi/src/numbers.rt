// Whole numbers and instants.
ghost use Rattle.std.specs.Prelude.{◌≡◌, ◌++◌, ℕ, ℤ, List, Some, drop};
ghost use Rattle.std.specs.Prelude.{IfSome, OnOk, OnErr, FitsSigned};
ghost use Rattle.std.specs.Int.{w32, w64};
ghost use Rattle.gm_calendar.specs.Instant.{IsInstant};
ghost use Rattle.gm_lexi.specs.Lexicode.{int_bytes, long_bytes, date_bytes};

use byteorder::{BigEndian, ByteOrder};
use gm_base::{Bytes, NoMemory};
use gm_calendar::Instant;
use std::alloc::Global;

// The first bit of a number of 32 bits, which tells in two's complement that it is below 0.
const FIRST_OF_32: u32 = 0x8000_0000;

// And that of a number of 64 bits.
const FIRST_OF_64: u64 = 0x8000_0000_0000_0000;

/// Appends a number of the kind Integer. After `NoMemory` the bytes are as before.
pub fn put_int(_alloc: Global, into: &mut Bytes, value: i32) -> Result<(), NoMemory>
    ensures ok { OnOk result (into.new ≡ into.old ++ int_bytes value) }
    ensures err { OnErr result (into.new ≡ into.old) }
{
    let mut four = [0u8; 4];
    BigEndian::write_u32(&mut four, value.cast_unsigned() ^ FIRST_OF_32);
    into.append(&four)
}

/// Appends a number of the kind Long. After `NoMemory` the bytes are as before.
pub fn put_long(_alloc: Global, into: &mut Bytes, value: i64) -> Result<(), NoMemory>
    ensures ok { OnOk result (into.new ≡ into.old ++ long_bytes value) }
    ensures err { OnErr result (into.new ≡ into.old) }
{
    let mut eight = [0u8; 8];
    BigEndian::write_u64(&mut eight, value.cast_unsigned() ^ FIRST_OF_64);
    into.append(&eight)
}

/// Appends an instant. After `NoMemory` the bytes are as before.
pub fn put_date(alloc: Global, into: &mut Bytes, value: Instant) -> Result<(), NoMemory>
    ensures ok { OnOk result (into.new ≡ into.old ++ date_bytes value) }
    ensures err { OnErr result (into.new ≡ into.old) }
{
    put_long(alloc, into, value.ms())
}

/// The number of the kind Integer with whose form the bytes begin, and the length of that form.
pub fn get_int(from: &[u8]) -> Option<(i32, usize)>
    ensures found { IfSome result (λ read. FitsSigned w32 read.0 × (read.1 ≡ 4)
        × (from.now ≡ int_bytes read.0 ++ drop read.1 from.now)) }
    ensures only { (value : ℤ) (rest : List ℕ) → FitsSigned w32 value
        → from.now ≡ int_bytes value ++ rest → result ≡ Some (value, 4) }
{
    if from.len() < 4 {
        return None;
    }
    let value = BigEndian::read_u32(from) ^ FIRST_OF_32;
    Some((value.cast_signed(), 4))
}

/// The number of the kind Long with whose form the bytes begin, and the length of that form.
pub fn get_long(from: &[u8]) -> Option<(i64, usize)>
    ensures found { IfSome result (λ read. FitsSigned w64 read.0 × (read.1 ≡ 8)
        × (from.now ≡ long_bytes read.0 ++ drop read.1 from.now)) }
    ensures only { (value : ℤ) (rest : List ℕ) → FitsSigned w64 value
        → from.now ≡ long_bytes value ++ rest → result ≡ Some (value, 8) }
{
    if from.len() < 8 {
        return None;
    }
    let value = BigEndian::read_u64(from) ^ FIRST_OF_64;
    Some((value.cast_signed(), 8))
}

/// The instant with whose form the bytes begin, and the length of that form.
pub fn get_date(from: &[u8]) -> Option<(Instant, usize)>
    ensures found { IfSome result (λ read. IsInstant read.0 × (read.1 ≡ 8)
        × (from.now ≡ date_bytes read.0 ++ drop read.1 from.now)) }
    ensures only { (value : ℤ) (rest : List ℕ) → IsInstant value
        → from.now ≡ date_bytes value ++ rest → result ≡ Some (value, 8) }
{
    let (ms, length) = get_long(from)?;
    let at = Instant::of(ms)?;
    Some((at, length))
}
