// A few bytes that many keys begin with.
ghost use Rattle.std.specs.Prelude.{◌≡◌, ◌≤◌, ◌++◌, length, take, OnOk};

use crate::NoMemory;
use std::marker::Model;

/// How many bytes a prefix has at most. An append wants room for so many, if only for a while.
pub(crate) const PREFIX_ROOM: usize = 16;

/// At most 16 bytes, held in place, which contracts see as their list. They are appended as one
/// piece of fixed size, of which those in excess are then dropped.
#[derive(Debug, Drop)]
pub struct Prefix {
    bytes: [u8; PREFIX_ROOM],
    count: usize,
}

impl Model for Prefix {
    ghost use Rattle.std.specs.Prelude.{◌≤◌, ℕ, List, take};

    ghost Value = { List ℕ };

    ghost view = { λ prefix. take prefix.count prefix.bytes };

    ghost invariant = { λ prefix. prefix.count ≤ 16 };
}

impl Prefix {
    pub fn of(bytes: &[u8]) -> Prefix
        requires { length bytes.now ≤ 16 }
        ensures { result ≡ bytes.now }
    {
        let count = bytes.len();
        let mut room = [0u8; PREFIX_ROOM];
        room[..count].copy_from_slice(bytes);
        Prefix { bytes: room, count }
    }

    // Appends the bytes to others.
    pub(crate) fn append_to(&self, buffer: &mut Vec<u8>) -> Result<(), NoMemory>
        ensures ok { OnOk result (buffer.new.items ≡ buffer.old.items ++ self.now) }
        ensures front { take (length buffer.old.items) buffer.new.items ≡ buffer.old.items }
    {
        append_first(buffer, &self.bytes, self.count)
    }
}

/// Appends the first bytes of an array. Where there is no memory, the buffer is as before.
pub(crate) fn append_first<const N: usize>(
    buffer: &mut Vec<u8>,
    of: &[u8; N],
    count: usize,
) -> Result<(), NoMemory>
    requires { count ≤ N }
    ensures ok { OnOk result (buffer.new.items ≡ buffer.old.items ++ take count of.now) }
    ensures front { take (length buffer.old.items) buffer.new.items ≡ buffer.old.items }
{
    let length = buffer.len();
    buffer.extend_from_slice(of)?;
    buffer.truncate(length + count);
    Ok(())
}
