// What a line is before it is read as a command.
ghost use Rattle.std.specs.Prelude.{◌≡◌};
ghost use Rattle.std.specs.Str as text;
ghost use Rattle.gm_script.specs.Line as spec;

/// The line without the one 0x0D at its end.
pub(crate) fn without_return(line: &[u8]) -> &[u8]
    ensures { result.now ≡ spec.without_return line.now }
{
    match line.strip_suffix(b"\r") {
        Some(text) => text,
        None => line,
    }
}

/// Whether a text whose first byte is no blank is empty or a comment.
pub(crate) fn says_nothing(text: &[u8]) -> bool
    ensures { result ≡ spec.says_nothing text.now }
{
    match text.split_first() {
        Some((first, _)) => *first == b'#',
        None => true,
    }
}

/// Whether bytes are UTF-8.
pub(crate) fn is_utf8(bytes: &[u8]) -> bool
    ensures { result ≡ text.is_utf8 bytes.now }
{
    str::from_utf8(bytes).is_ok()
}
