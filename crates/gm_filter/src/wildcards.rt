// LIKE, without memory and without going back over the pattern: the first place at which the part
// before the next `%` fits is as good as any later one.
ghost use Rattle.std.specs.Prelude.{◌≡◌, [], ◌≤◌, length, IsUtf8};
ghost use Rattle.gm_filter.specs.Like.{is_like};
ghost use Rattle.gm_filter.specs.Wildcards as spec;

/// Whether the text is like the pattern, in which `%` stands for any text and `_` for one
/// character. Its time is at most the product of the lengths. It takes no memory.
pub fn like(pattern: &[u8], text: &[u8]) -> bool
    requires pattern_is_text { IsUtf8 pattern.now }
    requires text_is_text { IsUtf8 text.now }
    ensures { result ≡ is_like pattern.now text.now }
{
    match Run::of(pattern, text) {
        Run::Ends(answer) => answer,
        Run::Percent(later, left) => matches_some_suffix(later, left),
    }
}

/// How far a pattern fits before its first `%`.
enum Run<'p, 't> {
    /// The answer, where no `%` was reached.
    Ends(bool),

    /// The pattern after the `%`, and the text that is left.
    Percent(&'p [u8], &'t [u8]),
}

impl Run<'_, '_> {
    ghost use Rattle.gm_filter.specs.Run.{IsRun};

    fn of<'p, 't>(mut pattern: &'p [u8], mut text: &'t [u8]) -> Run<'p, 't>
        ensures { IsRun pattern.entry.now text.entry.now result }
    {
        while let [wanted, later @ ..] = pattern {
            if *wanted == b'%' {
                return Run::Percent(later, text);
            }
            let [first, rest @ ..] = text else {
                return Run::Ends(false);
            };
            if *wanted == b'_' {
                text = past_continuation(rest);
            } else if *first == *wanted {
                text = rest;
            } else {
                return Run::Ends(false);
            }
            pattern = later;
        }
        Run::Ends(text.is_empty())
    }
}

fn matches_some_suffix(mut pattern: &[u8], mut text: &[u8]) -> bool
    ensures { result ≡ spec.some_suffix_from (spec.matches pattern.entry.now) text.entry.now }
{
    'search: while let [first, rest @ ..] = text {
        if is_continuation(*first) {
            text = rest;
            continue;
        }
        match Run::of(pattern, text) {
            Run::Ends(true) => return true,
            Run::Ends(false) => text = rest,
            Run::Percent(later, left) => {
                pattern = later;
                text = left;
            }
        }
    }
    matches_nothing(pattern)
}

fn matches_nothing(mut pattern: &[u8]) -> bool
    ensures { result ≡ spec.matches pattern.entry.now [] }
{
    while let [wanted, later @ ..] = pattern {
        if *wanted != b'%' {
            return false;
        }
        pattern = later;
    }
    true
}

// What is left behind the bytes that belong to the character before.
fn past_continuation(mut text: &[u8]) -> &[u8]
    ensures value { result.now ≡ spec.past_continuation text.entry.now }
    ensures shorter { length result.now ≤ length text.entry.now }
{
    while let [first, rest @ ..] = text {
        if !is_continuation(*first) {
            break;
        }
        text = rest;
    }
    text
}

fn is_continuation(byte: u8) -> bool
    ensures { result ≡ spec.is_continuation byte }
{
    byte / 64 == 2
}
