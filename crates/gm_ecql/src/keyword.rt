// The words that are no names.
ghost use Rattle.std.specs.Prelude.{◌≡◌, map};
ghost use Rattle.std.specs.Char.{to_ascii_lowercase};
ghost use Rattle.gm_ecql.specs.Keyword as spec;

/// A word of the language, in any ASCII case. A name that is one stands in double quotes.
#[derive(Clone, Copy, Debug, PartialEq, Eq)]
pub enum Keyword {
    And,
    Or,
    Not,
    In,
    Is,
    Null,
    Between,
    Like,
    Include,
    Exclude,
    Bbox,
    Intersects,
    Disjoint,
    Within,
    During,
    Before,
    After,
    Tequals,
    True,
    False,
    Where,
    Point,
    LineString,
    Polygon,
    MultiPoint,
    MultiLineString,
    MultiPolygon,
}

/// The keyword in capitals.
pub fn keyword_text(keyword: Keyword) -> &'static str
    ensures { result.now ≡ spec.keyword_text keyword }
{
    match keyword {
        Keyword::And => "AND",
        Keyword::Or => "OR",
        Keyword::Not => "NOT",
        Keyword::In => "IN",
        Keyword::Is => "IS",
        Keyword::Null => "NULL",
        Keyword::Between => "BETWEEN",
        Keyword::Like => "LIKE",
        Keyword::Include => "INCLUDE",
        Keyword::Exclude => "EXCLUDE",
        Keyword::Bbox => "BBOX",
        Keyword::Intersects => "INTERSECTS",
        Keyword::Disjoint => "DISJOINT",
        Keyword::Within => "WITHIN",
        Keyword::During => "DURING",
        Keyword::Before => "BEFORE",
        Keyword::After => "AFTER",
        Keyword::Tequals => "TEQUALS",
        Keyword::True => "TRUE",
        Keyword::False => "FALSE",
        Keyword::Where => "WHERE",
        Keyword::Point => "POINT",
        Keyword::LineString => "LINESTRING",
        Keyword::Polygon => "POLYGON",
        Keyword::MultiPoint => "MULTIPOINT",
        Keyword::MultiLineString => "MULTILINESTRING",
        Keyword::MultiPolygon => "MULTIPOLYGON",
    }
}

fn is_keyword(keyword: Keyword, word: &[u8]) -> bool
    ensures { result ≡ spec.is_named keyword (map to_ascii_lowercase word.now) }
{
    word.eq_ignore_ascii_case(keyword_text(keyword).as_bytes())
}

fn named(word: &[u8], keywords: &[Keyword]) -> Option<Keyword>
    ensures { result ≡ spec.first_named (map to_ascii_lowercase word.now) keywords.now }
{
    'keywords: for keyword in keywords {
        if is_keyword(*keyword, word) {
            return Some(*keyword);
        }
    }
    None
}

/// The keyword with this name, in any case.
pub fn keyword_of(word: &[u8]) -> Option<Keyword>
    ensures { result ≡ spec.keyword_of word.now }
{
    let all = [
        Keyword::And,
        Keyword::Or,
        Keyword::Not,
        Keyword::In,
        Keyword::Is,
        Keyword::Null,
        Keyword::Between,
        Keyword::Like,
        Keyword::Include,
        Keyword::Exclude,
        Keyword::Bbox,
        Keyword::Intersects,
        Keyword::Disjoint,
        Keyword::Within,
        Keyword::During,
        Keyword::Before,
        Keyword::After,
        Keyword::Tequals,
        Keyword::True,
        Keyword::False,
        Keyword::Where,
        Keyword::Point,
        Keyword::LineString,
        Keyword::Polygon,
        Keyword::MultiPoint,
        Keyword::MultiLineString,
        Keyword::MultiPolygon,
    ];
    named(word, &all)
}

/// Whether it begins a geometry.
pub fn begins_geometry(keyword: Keyword) -> bool
    ensures { result ≡ spec.begins_geometry keyword }
{
    matches!(
        keyword,
        Keyword::Point
            | Keyword::LineString
            | Keyword::Polygon
            | Keyword::MultiPoint
            | Keyword::MultiLineString
            | Keyword::MultiPolygon
    )
}
