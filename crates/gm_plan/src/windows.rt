// Boxes as windows of cells.
ghost use Rattle.std.specs.Prelude.{◌≡◌, ◌≤◌, ◌*◌, ◌++◌, ◌+ℤ◌, ◌≤ℤ◌, pos};
ghost use Rattle.std.specs.Prelude.{IfOk, OnOk, map, filter, min, true};
ghost use Rattle.gm_keys.specs.Cell as cell;
ghost use Rattle.gm_calendar.specs.Period.{last_of, longest_of};
ghost use Rattle.gm_plan.specs.Bins.{meets_bin};
ghost use Rattle.gm_plan.specs.Windows as spec;

use crate::bins::{meets_bin, offset_in, part_in};
use gm_base::NoMemory;
use gm_bounds::Interval;
use gm_calendar::{Period, span_of};
use gm_curve::normal;
use gm_geom::Box2;
use gm_trees::{Node3, Window};
use std::alloc::Global;

// The place of a coordinate along the world, whose lower end lies `half` below 0. What lies beyond
// the world counts as its edge.
#[tactic(auto, using(crate::proofs::Cells::none_below))]
fn along(z: i32, half: u32) -> u64
    ensures within { result ≤ 2 * half }
    ensures place { result ≡ min (cell.along half z) (2 * half) }
{
    if i64::from(z) + i64::from(half) < 0 {
        return 0;
    }
    let most = 2 * u64::from(half);
    place_of(z, half).min(most)
}

fn place_of(z: i32, half: u32) -> u64
    requires { pos 0 ≤ℤ (z +ℤ pos half) }
    ensures { result ≡ cell.along half z }
{
    (i64::from(z) + i64::from(half)) as u64
}

#[tactic(auto, using(crate::proofs::Cells::normal_beyond))]
fn longitude_cell(x: i32, bits: u32) -> u32
    requires some { 1 ≤ bits }
    requires few { bits ≤ 31 }
    ensures { result ≡ cell.longitude_cell bits x }
{
    normal(along(x, 1_800_000_000), 3_600_000_000, bits)
}

#[tactic(auto, using(crate::proofs::Cells::normal_beyond))]
fn latitude_cell(y: i32, bits: u32) -> u32
    requires some { 1 ≤ bits }
    requires few { bits ≤ 31 }
    ensures { result ≡ cell.latitude_cell bits y }
{
    normal(along(y, 900_000_000), 1_800_000_000, bits)
}

fn time_cell(period: Period, offset: u32, bits: u32) -> u32
    requires within { offset ≤ longest_of period }
    requires some { 1 ≤ bits }
    requires few { bits ≤ 31 }
    ensures { result ≡ cell.time_cell period bits offset }
{
    normal(u64::from(offset), span_of(period), bits)
}

fn window_of(bits: u32, extent: Box2) -> Window
    requires some { 1 ≤ bits }
    requires few { bits ≤ 31 }
    ensures { result ≡ spec.window_of bits extent }
{
    let low = Node3 {
        x: longitude_cell(extent.low.x, bits),
        y: latitude_cell(extent.low.y, bits),
        t: 0,
    };
    let high = Node3 {
        x: longitude_cell(extent.high.x, bits),
        y: latitude_cell(extent.high.y, bits),
        t: 0,
    };
    Window { low, high }
}

/// The windows of boxes in the plane, with so many bits a coordinate.
pub(crate) fn windows_of(alloc: Global, bits: u32, boxes: &[Box2]) -> Result<Vec<Window>, NoMemory>
    requires some { 1 ≤ bits }
    requires few { bits ≤ 31 }
    ensures { IfOk result (λ windows. windows.items ≡ spec.windows_of bits boxes.now) }
{
    let mut windows = Vec::new(alloc);
    'boxes: for extent in boxes {
        windows.push(window_of(bits, *extent))?;
    }
    Ok(windows)
}

// The same over the part of a bin that the interval meets.
fn window_in(period: Period, bits: u32, bin_number: u16, extent: Box2, interval: Interval) -> Window
    requires numbered { bin_number ≤ last_of period }
    requires met { meets_bin period bin_number interval ≡ true }
    requires some { 1 ≤ bits }
    requires few { bits ≤ 31 }
    ensures { result ≡ spec.window_in period bits bin_number extent interval }
{
    let (start, end) = part_in(period, bin_number, interval);
    let first = offset_in(period, bin_number, start);
    let last = offset_in(period, bin_number, end);
    let low = Node3 {
        x: longitude_cell(extent.low.x, bits),
        y: latitude_cell(extent.low.y, bits),
        t: time_cell(period, first, bits),
    };
    let high = Node3 {
        x: longitude_cell(extent.high.x, bits),
        y: latitude_cell(extent.high.y, bits),
        t: time_cell(period, last, bits),
    };
    Window { low, high }
}

// Adds the windows of a box, one for each interval that meets the bin.
fn push_windows(
    windows: &mut Vec<Window>,
    period: Period,
    bits: u32,
    bin_number: u16,
    extent: Box2,
    intervals: &[Interval],
) -> Result<(), NoMemory>
    requires numbered { bin_number ≤ last_of period }
    requires some { 1 ≤ bits }
    requires few { bits ≤ 31 }
    ensures { OnOk result (windows.new.items ≡ windows.old.items
        ++ map (spec.window_in period bits bin_number extent)
        (filter (meets_bin period bin_number) intervals.now)) }
{
    'intervals: for interval in intervals {
        if meets_bin(period, bin_number, *interval) {
            windows.push(window_in(period, bits, bin_number, extent, *interval))?;
        }
    }
    Ok(())
}

/// The windows of boxes and intervals in a bin.
pub(crate) fn windows_in(
    alloc: Global,
    period: Period,
    bits: u32,
    boxes: &[Box2],
    intervals: &[Interval],
    bin_number: u16,
) -> Result<Vec<Window>, NoMemory>
    requires numbered { bin_number ≤ last_of period }
    requires some { 1 ≤ bits }
    requires few { bits ≤ 31 }
    ensures { IfOk result (λ windows. windows.items
        ≡ spec.windows_in period bits boxes.now intervals.now bin_number) }
{
    let mut windows = Vec::new(alloc);
    'boxes: for extent in boxes {
        push_windows(&mut windows, period, bits, bin_number, *extent, intervals)?;
    }
    Ok(windows)
}
