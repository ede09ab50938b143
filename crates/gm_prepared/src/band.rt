// The bands of a box: its height cut into at most 256 parts.
ghost use Rattle.std.specs.Prelude.{◌≡◌, ◌<◌, ◌≤◌, ◌^◌, ◌≤ℤ◌};
ghost use Rattle.gm_prepared.specs.Band.{height_of, count_of, band_at};

use gm_geom::Box2;

/// The most bands that a geometry is cut into.
pub const BAND_LIMIT: usize = 256;

// How many y values the box has, both ends counted.
fn height_of(area: Box2) -> u64
    requires { area.low.y ≤ℤ area.high.y }
    ensures value { result ≡ height_of area }
    ensures small { result ≤ 2 ^ 32 }
{
    u64::from(area.high.y.abs_diff(area.low.y)) + 1
}

pub(crate) fn count_of(area: Box2) -> usize
    requires { area.low.y ≤ℤ area.high.y }
    ensures { result ≡ count_of area }
{
    (BAND_LIMIT as u64).min(height_of(area)) as usize
}

// The band that has this y.
pub(crate) fn band_at(area: Box2, y: i32) -> usize
    requires from { area.low.y ≤ℤ y }
    requires to { y ≤ℤ area.high.y }
    ensures value { result ≡ band_at area y }
    ensures within { result < count_of area }
{
    let height = height_of(area);
    let count = (BAND_LIMIT as u64).min(height);
    let above = u64::from(y.abs_diff(area.low.y));
    (((above + 1) * count - 1) / height) as usize
}
