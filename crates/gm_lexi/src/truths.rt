// Truths.
ghost use Rattle.std.specs.Prelude.{◌≡◌, ◌++◌, Bool, List, ℕ, Some, drop, IfSome, OnOk, OnErr};
ghost use Rattle.gm_lexi.specs.Lexicode.{bool_bytes};

use gm_base::{Bytes, NoMemory};
use std::alloc::Global;

/// Appends a truth. After `NoMemory` the bytes are as before.
pub fn put_bool(_alloc: Global, into: &mut Bytes, value: bool) -> Result<(), NoMemory>
    ensures ok { OnOk result (into.new ≡ into.old ++ bool_bytes value) }
    ensures err { OnErr result (into.new ≡ into.old) }
{
    into.append(&[u8::from(value)])
}

/// The truth with whose form the bytes begin, and the length of that form.
pub fn get_bool(from: &[u8]) -> Option<(bool, usize)>
    ensures found { IfSome result (λ read. (read.1 ≡ 1)
        × (from.now ≡ bool_bytes read.0 ++ drop read.1 from.now)) }
    ensures only { (value : Bool) (rest : List ℕ)
        → from.now ≡ bool_bytes value ++ rest → result ≡ Some (value, 1) }
{
    match from {
        [0, ..] => Some((false, 1)),
        [1, ..] => Some((true, 1)),
        _ => None,
    }
}
