// Which indexes fit a type, and which are listed.
ghost use Rattle.std.specs.Prelude.{◌≡◌, true, map, slice_get, option_and_then};
ghost use Rattle.std.specs.List.{list_all, list_any};
ghost use Rattle.std.specs.Option.{option_copied, option_map_or};
ghost use Rattle.gm_base.specs.Ascii.{comma};
ghost use Rattle.gm_types.specs.FeatureType.{is_met};
ghost use Rattle.gm_types.specs.Fits.{AreFits, word_fits};
ghost use Rattle.gm_types.specs.Index as index;
ghost use Rattle.gm_types.specs.Kind as kinds;
ghost use Rattle.gm_types.specs.Outline.{outlined};
ghost use Rattle.gm_types.specs.Parts.{parts_of};
ghost use Rattle.gm_types.specs.Specification.{default_shape_of};

use crate::outline::Outline;
use crate::parts::cut_once;
use crate::words::is_word;
use crate::{Attribute, GeoKind, Kind};

/// Which indexes fit: the attribute index where some attribute is indexed.
#[derive(Clone, Copy)]
pub(crate) struct Fits {
    pub z2: bool,
    pub z3: bool,
    pub xz2: bool,
    pub xz3: bool,
    pub by_attribute: bool,
}

fn shape_at(attributes: &[Attribute], place: usize) -> Option<GeoKind>
    ensures { result ≡ option_and_then kinds.shape_of
        (slice_get (map (λ attribute. attribute.kind) attributes.now) place) }
{
    match attributes.get(place)?.kind {
        Kind::Geo(shape) => Some(shape),
        _ => None,
    }
}

fn default_shape(outline: &Outline) -> Option<GeoKind>
    ensures { result ≡ default_shape_of (outlined outline.now) }
{
    let place = outline.geometry?;
    shape_at(outline.attributes.as_slice(), place)
}

fn is_point(shape: Option<GeoKind>) -> bool
    ensures { result ≡ index.is_point_shape shape }
{
    matches!(shape, Some(GeoKind::Point))
}

fn has_indexed(attributes: &[Attribute]) -> bool
    ensures { result ≡ list_any (λ attribute. attribute.indexed) attributes.now }
{
    attributes.iter().any(|attribute| attribute.indexed)
}

/// Which indexes fit a specification that has a default date or not.
pub(crate) fn fits_of(outline: &Outline, has_date: bool) -> Fits
    requires { has_date ≡ index.has_date (outlined outline.now) }
    ensures { AreFits (outlined outline.now) result }
{
    let shape = default_shape(outline);
    let point = is_point(shape);
    let other = shape.is_some() && !point;
    Fits {
        z2: point,
        z3: point && has_date,
        xz2: other,
        xz3: other && has_date,
        by_attribute: has_indexed(outline.attributes.as_slice()),
    }
}

fn word_fits(fits: Fits, word: &[u8]) -> bool
    ensures { result ≡ word_fits fits word.now }
{
    is_word(word, b"id")
        || is_word(word, b"z2") && fits.z2
        || is_word(word, b"z3") && fits.z3
        || is_word(word, b"xz2") && fits.xz2
        || is_word(word, b"xz3") && fits.xz3
        || is_word(word, b"attr") && fits.by_attribute
}

// Whether each member of a list by commas is the word of an index that fits.
fn words_fit(fits: Fits, list: &[u8]) -> bool
    ensures { result ≡ list_all (word_fits fits) (parts_of comma list.now) }
{
    let mut rest = list;
    'parts: loop {
        match cut_once(rest, b',') {
            None => return word_fits(fits, rest),
            Some((part, behind)) => {
                if !word_fits(fits, part) {
                    return false;
                }
                rest = behind;
            }
        }
    }
}

/// The same of a list, where there is one.
pub(crate) fn words_are_fit(fits: Fits, list: Option<&[u8]>) -> bool
    ensures { result ≡ is_met (λ list. list_all (word_fits fits) (parts_of comma list))
        (option_copied list.entry) }
{
    match list {
        None => true,
        Some(list) => words_fit(fits, list),
    }
}

fn is_member(word: &[u8], list: &[u8]) -> bool
    ensures { result ≡ index.is_member word.now list.now }
{
    let mut rest = list;
    'parts: loop {
        match cut_once(rest, b',') {
            None => return is_word(word, rest),
            Some((part, behind)) => {
                if is_word(word, part) {
                    return true;
                }
                rest = behind;
            }
        }
    }
}

/// Whether a word is a member of the list, or there is no list.
pub(crate) fn is_listed(list: Option<&[u8]>, word: &[u8]) -> bool
    ensures { result ≡ option_map_or (index.is_member word.now) (option_copied list.entry) true }
{
    match list {
        None => true,
        Some(list) => is_member(word, list),
    }
}
