// The words of a line.
ghost use Rattle.std.specs.Prelude.{◌≡◌, ◌≤◌, length, option_map};
ghost use Rattle.std.specs.List.{prefix_len};
ghost use Rattle.gm_base.specs.Ascii as ascii;
ghost use Rattle.gm_script.specs.Ask as ask;
ghost use Rattle.gm_script.specs.Words as spec;

fn is_blank(byte: u8) -> bool
    ensures { result ≡ ascii.is_blank byte }
{
    byte == b' ' || byte == b'\t'
}

fn is_no_blank(byte: u8) -> bool
    ensures { result ≡ spec.is_no_blank byte }
{
    !is_blank(byte)
}

fn blank_count(text: &[u8]) -> usize
    ensures value { result ≡ prefix_len ascii.is_blank text.now }
    ensures within { result ≤ length text.now }
{
    'bytes: for (byte_place, byte) in text.iter().enumerate() {
        if !is_blank(*byte) {
            return byte_place;
        }
    }
    text.len()
}

fn word_length(text: &[u8]) -> usize
    ensures value { result ≡ prefix_len spec.is_no_blank text.now }
    ensures within { result ≤ length text.now }
{
    'bytes: for (byte_place, byte) in text.iter().enumerate() {
        if !is_no_blank(*byte) {
            return byte_place;
        }
    }
    text.len()
}

/// The text past the blanks at its head.
pub(crate) fn past_blanks(text: &[u8]) -> &[u8]
    ensures { result.now ≡ spec.past_blanks text.now }
{
    text.split_at(blank_count(text)).1
}

/// The first word, and what stands behind it past the blanks before that.
pub(crate) fn split_word(text: &[u8]) -> (&[u8], &[u8])
    ensures word { result.0.now ≡ spec.word_of text.now }
    ensures behind { result.1.now ≡ spec.behind_word text.now }
{
    let shown = past_blanks(text);
    let (word, rest) = shown.split_at(word_length(shown));
    (word, past_blanks(rest))
}

/// What stands behind the key in the first word, if the word begins with it, and what follows that
/// word; else the text as it is.
pub(crate) fn split_option<'a>(key: &[u8], text: &'a [u8]) -> (Option<&'a [u8]>, &'a [u8])
    ensures value { option_map (λ value. value.now) result.0 ≡ ask.option_in key.now text.now }
    ensures rest { result.1.now ≡ ask.past_option key.now text.now }
{
    let (word, behind) = split_word(text);
    match word.strip_prefix(key) {
        Some(value) => (Some(value), behind),
        None => (None, text),
    }
}
