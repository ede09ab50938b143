// What follows from a specification and is asked for often.
ghost use Rattle.std.specs.Prelude.{◌≡◌, ◌&&◌, true};
ghost use Rattle.std.specs.Option.{option_copied, option_map_or};
ghost use Rattle.gm_types.specs.Facts as spec;
ghost use Rattle.gm_types.specs.Index as index;
ghost use Rattle.gm_types.specs.Outline.{outlined};

use crate::dates::default_date;
use crate::fits::{fits_of, is_listed, words_are_fit};
use crate::outline::Outline;
use crate::settings::{period, precision, setting, shards, z2_bits, z3_bits};
use gm_calendar::Period;

/// The bins of the time indexes, and the default date.
#[derive(Clone, Copy, Debug)]
pub(crate) struct Times {
    pub date: Option<usize>,
    pub period: Period,
}

/// The shards of the indexes, the levels of the trees of extents, and the bits of coordinates.
#[derive(Clone, Copy, Debug)]
pub(crate) struct Sizes {
    pub shards: u8,
    pub precision: u32,
    pub z2_bits: u32,
    pub z3_bits: u32,
}

/// Which indexes are enabled. Those of indexed attributes are so together.
#[derive(Clone, Copy, Debug)]
pub(crate) struct Enabled {
    pub z2: bool,
    pub z3: bool,
    pub xz2: bool,
    pub xz3: bool,
    pub by_attribute: bool,
}

/// All of these.
#[derive(Clone, Copy, Debug)]
pub(crate) struct Facts {
    pub times: Times,
    pub sizes: Sizes,
    pub enabled: Enabled,
}

fn times_of(outline: &Outline) -> Option<Times>
    ensures { spec.TellsTimes (outlined outline.now) result }
{
    let period = period(outline)?;
    let date = default_date(outline)?;
    Some(Times { date, period })
}

fn widths_of(outline: &Outline) -> Option<(u32, u32)>
    ensures { spec.TellsWidths (outlined outline.now) result }
{
    let two = z2_bits(outline)?;
    let three = z3_bits(outline)?;
    Some((two, three))
}

fn trees_of(outline: &Outline) -> Option<(u8, u32)>
    ensures { spec.TellsTrees (outlined outline.now) result }
{
    let shards = shards(outline)?;
    let precision = precision(outline)?;
    Some((shards, precision))
}

fn sizes_of(outline: &Outline) -> Option<Sizes>
    ensures { spec.TellsSizes (outlined outline.now) result }
{
    let (shards, precision) = trees_of(outline)?;
    let (z2_bits, z3_bits) = widths_of(outline)?;
    Some(Sizes {
        shards,
        precision,
        z2_bits,
        z3_bits,
    })
}

// Whether an index that fits, or not, is enabled.
fn is_enabled(fits: bool, list: Option<&[u8]>, word: &[u8]) -> bool
    ensures { result ≡ (fits && option_map_or (index.is_member word.now)
        (option_copied list.entry) true) }
{
    fits && is_listed(list, word)
}

fn enabled_of(outline: &Outline, has_date: bool) -> Option<Enabled>
    requires { has_date ≡ index.has_date (outlined outline.now) }
    ensures { spec.TellsEnabled (outlined outline.now) result }
{
    let fits = fits_of(outline, has_date);
    let list = setting(outline, b"geomesa.indices.enabled");
    if !words_are_fit(fits, list) {
        return None;
    }
    Some(Enabled {
        z2: is_enabled(fits.z2, list, b"z2"),
        z3: is_enabled(fits.z3, list, b"z3"),
        xz2: is_enabled(fits.xz2, list, b"xz2"),
        xz3: is_enabled(fits.xz3, list, b"xz3"),
        by_attribute: is_listed(list, b"attr"),
    })
}

/// What follows from a specification: None where a listed key has another value than those listed.
pub(crate) fn facts_of(outline: &Outline) -> Option<Facts>
    ensures { spec.TellsFacts (outlined outline.now) result }
{
    let times = times_of(outline)?;
    let sizes = sizes_of(outline)?;
    let enabled = enabled_of(outline, times.date.is_some())?;
    Some(Facts {
        times,
        sizes,
        enabled,
    })
}
