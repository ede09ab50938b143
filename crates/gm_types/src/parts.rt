// Parts of a text.
ghost use Rattle.std.specs.Prelude.{◌≡◌, ◌<◌, ◌≤◌, Some, None, false, length, MatchOption};
ghost use Rattle.std.specs.List.{prefix_len};
ghost use Rattle.gm_base.specs.Ascii.{is_blank};
ghost use Rattle.gm_types.specs.Parts as spec;

// The bytes before the first mark that stands in no quotes.
fn part_len(text: &[u8], mark: u8) -> usize
    ensures value { result ≡ spec.part_len mark false text.now }
    ensures within { result ≤ length text.now }
{
    let mut quoted = false;
    for (byte_place, byte) in text.iter().enumerate() {
        if !quoted && *byte == mark {
            return byte_place;
        }
        if *byte == b'\'' {
            quoted = !quoted;
        }
    }
    text.len()
}

/// What stands before and behind the first mark that stands in no quotes, if there is one.
pub(crate) fn cut_once(text: &[u8], mark: u8) -> Option<(&[u8], &[u8])>
    ensures cut { MatchOption result (spec.cut_once mark text.now ≡ None)
        (λ parts. spec.cut_once mark text.now ≡ Some (parts.0.now, parts.1.now)) }
    ensures shorter { MatchOption result (Unit {0})
        (λ parts. length parts.1.now < length text.now) }
{
    let len = part_len(text, mark);
    if len == text.len() {
        return None;
    }
    Some((&text[..len], &text[len + 1..]))
}

pub(crate) fn is_blank(byte: u8) -> bool
    ensures { result ≡ is_blank byte }
{
    byte == b' ' || byte == b'\t'
}

// A text without the blanks at its end.
fn trimmed_end(text: &[u8]) -> &[u8]
    ensures { result.now ≡ spec.trimmed_end text.now }
{
    let mut len = text.len();
    while len > 0 && is_blank(text[len - 1]) {
        len -= 1;
    }
    &text[..len]
}

fn blank_len(text: &[u8]) -> usize
    ensures value { result ≡ prefix_len is_blank text.now }
    ensures within { result ≤ length text.now }
{
    for (byte_place, byte) in text.iter().enumerate() {
        if !is_blank(*byte) {
            return byte_place;
        }
    }
    text.len()
}

/// A text without the blanks at either end.
pub(crate) fn trimmed(text: &[u8]) -> &[u8]
    ensures { result.now ≡ spec.trimmed text.now }
{
    trimmed_end(&text[blank_len(text)..])
}
