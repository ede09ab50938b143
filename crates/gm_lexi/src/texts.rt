// Texts.
ghost use Rattle.std.specs.Prelude.{◌≡◌, ◌++◌, ◌+◌, List, ℕ, Some, take};
ghost use Rattle.std.specs.Prelude.{drop, length, IfSome, OnOk, OnErr};
ghost use Rattle.gm_lexi.specs.Lexicode.{text_bytes, HasNoZero, IsLexicalText};

use gm_base::{Bytes, NoMemory, Text};
use memchr::memchr;
use std::alloc::Global;

/// Appends a text. After `NoMemory` the bytes are as before.
pub fn put_text(_alloc: Global, into: &mut Bytes, value: &Text) -> Result<(), NoMemory>
    requires { HasNoZero value.now }
    ensures ok { OnOk result (into.new ≡ into.old ++ text_bytes value.now) }
    ensures err { OnErr result (into.new ≡ into.old) }
{
    let length = into.len();
    if let Err(error) = put_ended(into, value.as_bytes()) {
        into.truncate(length);
        return Err(error);
    }
    Ok(())
}

// Appends the bytes and a 0, or after an error perhaps the bytes alone.
fn put_ended(into: &mut Bytes, text: &[u8]) -> Result<(), NoMemory>
    ensures ok { OnOk result (into.new ≡ into.old ++ text_bytes text.now) }
    ensures err { OnErr result (take (length into.old) into.new ≡ into.old) }
{
    into.append(text)?;
    into.append(&[0])
}

/// The length of the text with whose form the bytes begin. That form is one byte longer.
pub fn get_text(from: &[u8]) -> Option<usize>
    ensures found { IfSome result (λ read. IsLexicalText (take read from.now)
        × (from.now ≡ text_bytes (take read from.now) ++ drop (read + 1) from.now)) }
    ensures only { (text rest : List ℕ) → IsLexicalText text
        → from.now ≡ text_bytes text ++ rest → result ≡ Some (length text) }
{
    let end = memchr(0, from)?;
    str::from_utf8(&from[..end]).ok()?;
    Some(end)
}
