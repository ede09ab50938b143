// The parts of a key, found again.
ghost use Rattle.std.specs.Prelude.{◌≡◌, ◌-◌, ◌++◌, ℕ, List, Some, length};
ghost use Rattle.std.specs.Prelude.{IsTrue, IfSome};
ghost use Rattle.std.specs.Option.{option_copied};
ghost use Rattle.std.specs.List.{list_all};
ghost use Rattle.byteorder.specs.Endian.{big_bytes};
ghost use Rattle.gm_base.specs.Identifier.{is_identifier as is_id, has_identifier_form as has_form};
ghost use Rattle.gm_base.specs.Identifier.{is_printable};
ghost use Rattle.gm_types.specs.Index.{has_index};
ghost use Rattle.gm_types.specs.declared.kind.Kind.TheVariants.{Text, Integer, Long, Boolean, Date};
ghost use Rattle.gm_keys.specs.Key as spec;
ghost use Rattle.gm_keys.specs.Layout.{IsForm, IsFormAt, IsMiddle, IsLaidOut, IsIdAt};

use crate::key::{BIN_CODE_LENGTH, CODE_LENGTH, index_number};
use byteorder::{BigEndian, ByteOrder};
use gm_lexi::{get_bool, get_date, get_int, get_long, get_text};
use gm_types::{FeatureType, IndexKind, Kind};

/// The greatest number of bytes of an identifier.
const IDENTIFIER_LIMIT: usize = 128;

/// Where the identifier of a key begins, and where it ends. None where the type has not the index,
/// or the key is not laid out as one of it. No memory.
pub fn id_of(of: &FeatureType, kind: IndexKind, key: &[u8]) -> Option<(usize, usize)>
    ensures found { IfSome result (λ at. IsTrue (has_index of.now kind)
        × IsIdAt of.now kind key.now at) }
    ensures only { (middle id : List ℕ) → IsTrue (has_index of.now kind)
        → IsLaidOut of.now kind key.now middle id
        → result ≡ Some (length key.now - length id, length key.now) }
{
    if !of.has(kind) {
        return None;
    }
    let rest = after_prefix(of, kind, key)?;
    let id = after_middle(of, kind, rest)?;
    if is_identifier(id) {
        Some((key.len() - id.len(), key.len()))
    } else {
        None
    }
}

// What follows the prefix of the keys of an index.
#[tactic(auto, unfolding(crate::specs::Key::prefix_of))]
fn after_prefix<'a>(of: &FeatureType, kind: IndexKind, key: &'a [u8]) -> Option<&'a [u8]>
    ensures found { IfSome result (λ rest. key.now ≡ spec.prefix_of of.now kind ++ rest.now) }
    ensures only { (rest : List ℕ) → key.now ≡ spec.prefix_of of.now kind ++ rest
        → option_copied result ≡ Some rest }
{
    let rest = after_number(of.number(), key)?;
    match rest {
        [index, rest @ ..] => {
            if *index == index_number(kind) {
                after_attribute(kind, rest)
            } else {
                None
            }
        }
        [] => None,
    }
}

// What follows the number of the attribute, for the index of one.
fn after_attribute<'a>(kind: IndexKind, bytes: &'a [u8]) -> Option<&'a [u8]>
    ensures found { IfSome result (λ rest. bytes.now ≡ spec.attribute_number kind ++ rest.now) }
    ensures only { (rest : List ℕ) → bytes.now ≡ spec.attribute_number kind ++ rest
        → option_copied result ≡ Some rest }
{
    match kind {
        IndexKind::Attr(attribute) => after_number(attribute, bytes),
        _ => Some(bytes),
    }
}

// What follows a number of two bytes.
fn after_number(number: u16, bytes: &[u8]) -> Option<&[u8]>
    ensures found { IfSome result (λ rest. bytes.now ≡ big_bytes 2 number ++ rest.now) }
    ensures only { (rest : List ℕ) → bytes.now ≡ big_bytes 2 number ++ rest
        → option_copied result ≡ Some rest }
{
    let mut two = [0u8; 2];
    BigEndian::write_u16(&mut two, number);
    match bytes {
        [first, second, rest @ ..] => {
            if *first == two[0] && *second == two[1] {
                Some(rest)
            } else {
                None
            }
        }
        _ => None,
    }
}

// What follows a shard and a code, a shard, a bin and a code, or a form.
fn after_middle<'a>(of: &FeatureType, kind: IndexKind, bytes: &'a [u8]) -> Option<&'a [u8]>
    ensures found { IfSome result (λ rest. (middle : List ℕ) × IsMiddle of.now kind middle
        × (bytes.now ≡ middle ++ rest.now)) }
    ensures only { (middle rest : List ℕ) → IsMiddle of.now kind middle
        → bytes.now ≡ middle ++ rest → option_copied result ≡ Some rest }
{
    match kind {
        IndexKind::Id => Some(bytes),
        IndexKind::Z2 | IndexKind::Xz2 => after(bytes, CODE_LENGTH),
        IndexKind::Z3 | IndexKind::Xz3 => after(bytes, BIN_CODE_LENGTH),
        IndexKind::Attr(attribute) => match of.attributes().as_slice().get(usize::from(attribute)) {
            Some(found) => after_form(found.kind, bytes),
            None => None,
        },
    }
}

// What follows so many bytes.
fn after(bytes: &[u8], count: usize) -> Option<&[u8]>
    ensures found { IfSome result (λ rest. (middle : List ℕ) × (length middle ≡ count)
        × (bytes.now ≡ middle ++ rest.now)) }
    ensures only { (middle rest : List ℕ) → length middle ≡ count
        → bytes.now ≡ middle ++ rest → option_copied result ≡ Some rest }
{
    if bytes.len() < count {
        return None;
    }
    Some(&bytes[count..])
}

// What follows the form of a value of a kind.
fn after_form(kind: Kind, bytes: &[u8]) -> Option<&[u8]>
    ensures found { IfSome result (λ rest. (form : List ℕ) × IsForm (Some kind) form
        × (bytes.now ≡ form ++ rest.now)) }
    ensures only { (form rest : List ℕ) → IsForm (Some kind) form
        → bytes.now ≡ form ++ rest → option_copied result ≡ Some rest }
{
    let length = form_length(kind, bytes)?;
    Some(&bytes[length..])
}

// How long the form of a value of a kind is with which the bytes begin.
fn form_length(kind: Kind, bytes: &[u8]) -> Option<usize>
    ensures found { IfSome result (λ size. IsFormAt (Some kind) bytes.now size) }
    ensures only { (form rest : List ℕ) → IsForm (Some kind) form
        → bytes.now ≡ form ++ rest → result ≡ Some (length form) }
{
    match kind {
        Kind::Text => text_length(bytes),
        Kind::Integer => int_length(bytes),
        Kind::Long => long_length(bytes),
        Kind::Boolean => bool_length(bytes),
        Kind::Date => date_length(bytes),
        Kind::Geo(_) => None,
    }
}

fn text_length(bytes: &[u8]) -> Option<usize>
    ensures found { IfSome result (λ size. IsFormAt (Some Text) bytes.now size) }
    ensures only { (form rest : List ℕ) → IsForm (Some Text) form
        → bytes.now ≡ form ++ rest → result ≡ Some (length form) }
{
    let length = get_text(bytes)?;
    Some(length + 1)
}

fn int_length(bytes: &[u8]) -> Option<usize>
    ensures found { IfSome result (λ size. IsFormAt (Some Integer) bytes.now size) }
    ensures only { (form rest : List ℕ) → IsForm (Some Integer) form
        → bytes.now ≡ form ++ rest → result ≡ Some (length form) }
{
    let (_, length) = get_int(bytes)?;
    Some(length)
}

fn long_length(bytes: &[u8]) -> Option<usize>
    ensures found { IfSome result (λ size. IsFormAt (Some Long) bytes.now size) }
    ensures only { (form rest : List ℕ) → IsForm (Some Long) form
        → bytes.now ≡ form ++ rest → result ≡ Some (length form) }
{
    let (_, length) = get_long(bytes)?;
    Some(length)
}

fn bool_length(bytes: &[u8]) -> Option<usize>
    ensures found { IfSome result (λ size. IsFormAt (Some Boolean) bytes.now size) }
    ensures only { (form rest : List ℕ) → IsForm (Some Boolean) form
        → bytes.now ≡ form ++ rest → result ≡ Some (length form) }
{
    let (_, length) = get_bool(bytes)?;
    Some(length)
}

fn date_length(bytes: &[u8]) -> Option<usize>
    ensures found { IfSome result (λ size. IsFormAt (Some Date) bytes.now size) }
    ensures only { (form rest : List ℕ) → IsForm (Some Date) form
        → bytes.now ≡ form ++ rest → result ≡ Some (length form) }
{
    let (_, length) = get_date(bytes)?;
    Some(length)
}

// Whether the bytes are an identifier.
fn is_identifier(bytes: &[u8]) -> bool
    ensures { result ≡ is_id bytes.now }
{
    match str::from_utf8(bytes) {
        Ok(_) => has_identifier_form(bytes),
        Err(_) => false,
    }
}

fn has_identifier_form(bytes: &[u8]) -> bool
    ensures { result ≡ has_form bytes.now }
{
    !bytes.is_empty() && bytes.len() <= IDENTIFIER_LIMIT && are_printable(bytes)
}

// Whether no byte is a control character.
fn are_printable(bytes: &[u8]) -> bool
    ensures { result ≡ list_all is_printable bytes.now }
{
    bytes.iter().all(|byte| 32 <= *byte && *byte != 127)
}
