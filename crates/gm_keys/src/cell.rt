// The cells of places and moments, and the codes of points and boxes.
ghost use Rattle.std.specs.Prelude.{◌≡◌, ◌≤◌, ◌<◌, ◌^◌, ◌+ℤ◌, ◌≤ℤ◌, pos, true, IsTrue};
ghost use Rattle.gm_calendar.specs.Period.{longest_of};
ghost use Rattle.gm_geom.specs.Validity.{is_within, is_in_world, longitude_limit, latitude_limit};
ghost use Rattle.gm_types.specs.Specification.{is_z2_width, is_z3_width, is_precision};
ghost use Rattle.gm_keys.specs.Cell as spec;
ghost use Rattle.gm_keys.specs.Cell.{IsBoxInWorld};

use gm_calendar::{Period, span_of};
use gm_curve::{Curve, Xz, normal, normal_rises};
use gm_geom::{Box2, Point};

// The place of a coordinate along the world, whose lower end lies `half` below 0.
fn along(z: i32, half: u32) -> u64
    requires { pos 0 ≤ℤ (z +ℤ pos half) }
    ensures { result ≡ spec.along half z }
{
    (i64::from(z) + i64::from(half)) as u64
}

fn longitude_cell(x: i32, bits: u32) -> u32
    requires in_world { is_within longitude_limit x ≡ true }
    requires some { 1 ≤ bits }
    requires few { bits ≤ 31 }
    ensures cell { result ≡ spec.longitude_cell bits x }
    ensures below { result < 2 ^ bits }
{
    normal(along(x, 1_800_000_000), 3_600_000_000, bits)
}

fn latitude_cell(y: i32, bits: u32) -> u32
    requires in_world { is_within latitude_limit y ≡ true }
    requires some { 1 ≤ bits }
    requires few { bits ≤ 31 }
    ensures cell { result ≡ spec.latitude_cell bits y }
    ensures below { result < 2 ^ bits }
{
    normal(along(y, 900_000_000), 1_800_000_000, bits)
}

fn time_cell(period: Period, offset: u32, bits: u32) -> u32
    requires within { offset < longest_of period }
    requires some { 1 ≤ bits }
    requires few { bits ≤ 31 }
    ensures cell { result ≡ spec.time_cell period bits offset }
    ensures below { result < 2 ^ bits }
{
    normal(u64::from(offset), span_of(period), bits)
}

/// The Z code of a point, with so many bits a coordinate.
pub(crate) fn z2_code(bits: u32, point: Point) -> u64
    requires listed { IsTrue (is_z2_width bits) }
    requires in_world { is_in_world point ≡ true }
    ensures { result ≡ spec.z2_code bits point }
{
    match bits {
        8 => plane_code::<8>(point),
        16 => plane_code::<16>(point),
        24 => plane_code::<24>(point),
        _ => plane_code::<31>(point),
    }
}

fn plane_code<const B: u32>(point: Point) -> u64
    requires some { 1 ≤ B }
    requires few { B ≤ 31 }
    requires in_world { is_in_world point ≡ true }
    ensures { result ≡ spec.z2_code B point }
{
    let cells = [longitude_cell(point.x, B), latitude_cell(point.y, B)];
    Curve::<2, B>.encode(&cells)
}

/// The Z code of a point at an offset in a bin, with so many bits a coordinate.
pub(crate) fn z3_code(period: Period, bits: u32, point: Point, offset: u32) -> u64
    requires listed { IsTrue (is_z3_width bits) }
    requires in_world { is_in_world point ≡ true }
    requires within { offset < longest_of period }
    ensures { result ≡ spec.z3_code period bits point offset }
{
    match bits {
        8 => space_code::<8>(period, point, offset),
        12 => space_code::<12>(period, point, offset),
        16 => space_code::<16>(period, point, offset),
        _ => space_code::<21>(period, point, offset),
    }
}

fn space_code<const B: u32>(period: Period, point: Point, offset: u32) -> u64
    requires some { 1 ≤ B }
    requires few { B ≤ 21 }
    requires in_world { is_in_world point ≡ true }
    requires within { offset < longest_of period }
    ensures { result ≡ spec.z3_code period B point offset }
{
    let cells = [
        longitude_cell(point.x, B),
        latitude_cell(point.y, B),
        time_cell(period, offset, B),
    ];
    Curve::<3, B>.encode(&cells)
}

/// The XZ code of a box, with so many levels.
pub(crate) fn xz2_code(bits: u32, extent: Box2) -> u64
    requires listed { IsTrue (is_precision bits) }
    requires in_world { IsBoxInWorld extent }
    ensures { result ≡ spec.xz2_code bits extent }
{
    match bits {
        4 => plane_extent_code::<4>(extent),
        8 => plane_extent_code::<8>(extent),
        12 => plane_extent_code::<12>(extent),
        _ => plane_extent_code::<16>(extent),
    }
}

fn plane_extent_code<const G: u32>(extent: Box2) -> u64
    requires some { 1 ≤ G }
    requires few { G ≤ 16 }
    requires in_world { IsBoxInWorld extent }
    ensures { result ≡ spec.xz2_code G extent }
{
    normal_rises();
    let low = [
        longitude_cell(extent.low.x, G),
        latitude_cell(extent.low.y, G),
    ];
    let high = [
        longitude_cell(extent.high.x, G),
        latitude_cell(extent.high.y, G),
    ];
    Xz::<2, G>.code(&low, &high)
}

/// The XZ code of a box at an offset in a bin, with so many levels.
pub(crate) fn xz3_code(period: Period, bits: u32, extent: Box2, offset: u32) -> u64
    requires listed { IsTrue (is_precision bits) }
    requires in_world { IsBoxInWorld extent }
    requires within { offset < longest_of period }
    ensures { result ≡ spec.xz3_code period bits extent offset }
{
    match bits {
        4 => space_extent_code::<4>(period, extent, offset),
        8 => space_extent_code::<8>(period, extent, offset),
        12 => space_extent_code::<12>(period, extent, offset),
        _ => space_extent_code::<16>(period, extent, offset),
    }
}

fn space_extent_code<const G: u32>(period: Period, extent: Box2, offset: u32) -> u64
    requires some { 1 ≤ G }
    requires few { G ≤ 16 }
    requires in_world { IsBoxInWorld extent }
    requires within { offset < longest_of period }
    ensures { result ≡ spec.xz3_code period G extent offset }
{
    normal_rises();
    let time = time_cell(period, offset, G);
    let low = [
        longitude_cell(extent.low.x, G),
        latitude_cell(extent.low.y, G),
        time,
    ];
    let high = [
        longitude_cell(extent.high.x, G),
        latitude_cell(extent.high.y, G),
        time,
    ];
    Xz::<3, G>.code(&low, &high)
}
