// The words of specifications.
ghost use Rattle.std.specs.Prelude.{◌≡◌, ◌&&◌};
ghost use Rattle.std.specs.List.{list_all};
ghost use Rattle.std.specs.Str.{is_utf8};
ghost use Rattle.gm_types.specs.Halt.{Reads};
ghost use Rattle.gm_types.specs.Reader.{value_if};
ghost use Rattle.gm_types.specs.Words as spec;

use crate::halt::Halt;
use crate::parts::is_blank;
use gm_base::Text;
use std::alloc::Global;

/// Whether a text is a word.
pub(crate) fn is_word(text: &[u8], word: &[u8]) -> bool
    ensures { result ≡ spec.same_text text.now word.now }
{
    text == word
}

fn begins_name(byte: u8) -> bool
    ensures { result ≡ spec.begins_name byte }
{
    byte.is_ascii_alphabetic() || byte == b'_'
}

fn continues_name(byte: u8) -> bool
    ensures { result ≡ spec.continues_name byte }
{
    begins_name(byte) || byte.is_ascii_digit()
}

fn is_key_byte(byte: u8) -> bool
    ensures { result ≡ spec.is_key_byte byte }
{
    continues_name(byte) || byte == b'.' || byte == b'-'
}

fn is_mark(byte: u8) -> bool
    ensures { result ≡ spec.is_mark byte }
{
    byte == b',' || byte == b';' || byte == b':' || byte == b'=' || byte == b'\''
}

fn is_bare_byte(byte: u8) -> bool
    ensures { result ≡ spec.is_bare_byte byte }
{
    !is_mark(byte) && !is_blank(byte)
}

fn continue_names(bytes: &[u8]) -> bool
    ensures { result ≡ list_all spec.continues_name bytes.now }
{
    bytes.iter().all(|byte| continues_name(*byte))
}

fn are_key_bytes(bytes: &[u8]) -> bool
    ensures { result ≡ list_all spec.is_key_byte bytes.now }
{
    bytes.iter().all(|byte| is_key_byte(*byte))
}

fn are_bare_bytes(bytes: &[u8]) -> bool
    ensures { result ≡ list_all spec.is_bare_byte bytes.now }
{
    bytes.iter().all(|byte| is_bare_byte(*byte))
}

fn continue_name(bytes: &[u8]) -> bool
    ensures { result ≡ spec.continue_name bytes.now }
{
    bytes.len() <= 63 && continue_names(bytes)
}

/// Whether bytes are a name: a letter or `_`, and at most 63 letters, digits and `_` behind it.
#[tactic(auto, unfolding(crate::specs::Words::is_name))]
pub fn is_name(name: &[u8]) -> bool
    ensures { result ≡ spec.is_name name.now }
{
    match name.split_first() {
        Some((first, rest)) => begins_name(*first) && continue_name(rest),
        None => false,
    }
}

#[tactic(auto, unfolding(crate::specs::Words::is_key))]
fn is_key(bytes: &[u8]) -> bool
    ensures { result ≡ spec.is_key bytes.now }
{
    !bytes.is_empty() && are_key_bytes(bytes)
}

pub(crate) fn is_bare_form(bytes: &[u8]) -> bool
    ensures { result ≡ spec.is_bare_form bytes.now }
{
    !bytes.is_empty() && are_bare_bytes(bytes)
}

fn has_no_quote(bytes: &[u8]) -> bool
    ensures { result ≡ spec.has_no_quote bytes.now }
{
    bytes.iter().all(|byte| *byte != b'\'')
}

// The text with these bytes, if they have the form that is asked for and are UTF-8.
fn text_if(alloc: Global, formed: bool, bytes: &[u8]) -> Result<Text, Halt>
    ensures { Reads (value_if (formed && is_utf8 bytes.now) bytes.now) result }
{
    if !formed {
        return Err(Halt::Broken);
    }
    let Ok(valid) = str::from_utf8(bytes) else {
        return Err(Halt::Broken);
    };
    Ok(Text::from_str(alloc, valid)?)
}

/// A name, of at most 64 bytes.
pub(crate) fn name_text(alloc: Global, bytes: &[u8]) -> Result<Text, Halt>
    ensures { Reads (value_if (spec.is_name bytes.now) bytes.now) result }
{
    text_if(alloc, is_name(bytes), bytes)
}

/// The key of an option or of a user datum.
pub(crate) fn key_text(alloc: Global, bytes: &[u8]) -> Result<Text, Halt>
    ensures { Reads (value_if (spec.is_key bytes.now) bytes.now) result }
{
    text_if(alloc, is_key(bytes), bytes)
}

/// A value without quotes.
#[tactic(auto, unfolding(crate::specs::Words::is_bare))]
pub(crate) fn bare_text(alloc: Global, bytes: &[u8]) -> Result<Text, Halt>
    ensures { Reads (value_if (spec.is_bare bytes.now) bytes.now) result }
{
    text_if(alloc, is_bare_form(bytes), bytes)
}

/// What stands between the quotes of a value.
#[tactic(auto, unfolding(crate::specs::Words::is_quotable))]
pub(crate) fn quotable_text(alloc: Global, bytes: &[u8]) -> Result<Text, Halt>
    ensures { Reads (value_if (spec.is_quotable bytes.now) bytes.now) result }
{
    text_if(alloc, has_no_quote(bytes), bytes)
}
