// Kinds of bytes, and runs of them.
ghost use Rattle.std.specs.Prelude.{◌≡◌, ◌≤◌, length};
ghost use Rattle.std.specs.List.{prefix_len};
ghost use Rattle.gm_calendar.specs.Spelling as calendar;
ghost use Rattle.gm_base.specs.Ascii as ascii;
ghost use Rattle.gm_ecql.specs.Token as spec;

/// A space or a tab.
pub fn is_blank(byte: u8) -> bool
    ensures { result ≡ ascii.is_blank byte }
{
    byte == b' ' || byte == b'\t'
}

/// A letter or an underscore.
pub fn is_word_start(byte: u8) -> bool
    ensures { result ≡ spec.is_word_start byte }
{
    byte.is_ascii_alphabetic() || byte == b'_'
}

/// A letter, a digit or an underscore.
pub fn is_word_byte(byte: u8) -> bool
    ensures { result ≡ spec.is_word_byte byte }
{
    byte.is_ascii_alphanumeric() || byte == b'_'
}

/// A plus or a minus.
pub fn is_sign(byte: u8) -> bool
    ensures { result ≡ spec.is_sign byte }
{
    byte == b'+' || byte == b'-'
}

/// What an instant or a number may begin with: a digit, a point or a sign.
pub fn is_number_start(byte: u8) -> bool
    ensures { result ≡ spec.is_number_start byte }
{
    let digit = byte.is_ascii_digit() || byte == b'.';
    digit || is_sign(byte)
}

/// What goes on a number: a letter, a digit, an underscore or a point.
pub fn is_number_tail(byte: u8) -> bool
    ensures { result ≡ spec.is_number_tail byte }
{
    is_word_byte(byte) || byte == b'.'
}

fn is_instant_byte(byte: u8) -> bool
    ensures { result ≡ calendar.is_instant_byte byte }
{
    match byte {
        b'+' | b'-' | b'.' | b':' | b'T' | b'Z' => true,
        _ => byte.is_ascii_digit(),
    }
}

/// How many blanks stand at the front.
pub fn blank_count(bytes: &[u8]) -> usize
    ensures value { result ≡ prefix_len ascii.is_blank bytes.now }
    ensures within { result ≤ length bytes.now }
{
    'bytes: for (count, byte) in bytes.iter().enumerate() {
        if !is_blank(*byte) {
            return count;
        }
    }
    bytes.len()
}

/// How many bytes of a word stand at the front.
pub fn word_count(bytes: &[u8]) -> usize
    ensures value { result ≡ prefix_len spec.is_word_byte bytes.now }
    ensures within { result ≤ length bytes.now }
{
    'bytes: for (count, byte) in bytes.iter().enumerate() {
        if !is_word_byte(*byte) {
            return count;
        }
    }
    bytes.len()
}

/// How many bytes stand before the first double quote, or in all.
pub fn name_count(bytes: &[u8]) -> usize
    ensures value { result ≡ prefix_len spec.is_no_double bytes.now }
    ensures within { result ≤ length bytes.now }
{
    'bytes: for (count, byte) in bytes.iter().enumerate() {
        if *byte == b'"' {
            return count;
        }
    }
    bytes.len()
}

/// How many bytes that an instant may have stand at the front.
pub fn instant_count(bytes: &[u8]) -> usize
    ensures value { result ≡ prefix_len calendar.is_instant_byte bytes.now }
    ensures within { result ≤ length bytes.now }
{
    'bytes: for (count, byte) in bytes.iter().enumerate() {
        if !is_instant_byte(*byte) {
            return count;
        }
    }
    bytes.len()
}
