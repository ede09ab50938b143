// The six keywords.
ghost use Rattle.std.specs.Prelude.{◌≡◌, ◌≤◌, ◌==◌, map, length, take, drop};
ghost use Rattle.std.specs.Char.{to_ascii_lowercase};
ghost use Rattle.std.specs.Cmp.Lexicographic.{pointwise};
ghost use Rattle.gm_wkt.specs.Keyword as spec;

/// What a text begins with.
#[derive(Clone, Copy, Debug, PartialEq, Eq)]
pub enum Keyword {
    Point,
    Line,
    Area,
    ManyPoints,
    ManyLines,
    ManyAreas,
}

fn is_word(name: &[u8], word: &[u8]) -> bool
    ensures { result
        ≡ pointwise ◌==◌ (map to_ascii_lowercase name.now) (map to_ascii_lowercase word.now) }
{
    name.eq_ignore_ascii_case(word)
}

/// The keyword with this name, in any case.
pub fn keyword_of(name: &[u8]) -> Option<Keyword>
    ensures { result ≡ spec.keyword_named (map to_ascii_lowercase name.now) }
{
    if is_word(name, b"POINT") {
        return Some(Keyword::Point);
    }
    if is_word(name, b"LINESTRING") {
        return Some(Keyword::Line);
    }
    if is_word(name, b"POLYGON") {
        return Some(Keyword::Area);
    }
    if is_word(name, b"MULTIPOINT") {
        return Some(Keyword::ManyPoints);
    }
    if is_word(name, b"MULTILINESTRING") {
        return Some(Keyword::ManyLines);
    }
    if is_word(name, b"MULTIPOLYGON") {
        return Some(Keyword::ManyAreas);
    }
    None
}

/// The letters at the front, and what follows them.
pub fn split_word(text: &[u8]) -> (&[u8], &[u8])
    ensures front { result.0.now ≡ take (spec.letter_run text.now) text.now }
    ensures back { result.1.now ≡ drop (spec.letter_run text.now) text.now }
{
    text.split_at(letter_run(text))
}

fn letter_run(text: &[u8]) -> usize
    ensures value { result ≡ spec.letter_run text.now }
    ensures within { result ≤ length text.now }
{
    'bytes: for (count, byte) in text.iter().enumerate() {
        if !byte.is_ascii_alphabetic() {
            return count;
        }
    }
    text.len()
}
