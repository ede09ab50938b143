// Ranges of windows in space and time, bin by bin.
ghost use Rattle.std.specs.Prelude.{◌≡◌, ◌≤◌, ◌<◌, ◌++◌, ◌∷◌, [], ℕ, length};
ghost use Rattle.std.specs.Prelude.{map, All, IsTrue, IfOk, OnOk, IfSome};
ghost use Rattle.gm_trees.specs.Tree.{Shape};
ghost use Rattle.gm_calendar.specs.Period.{last_of};
ghost use Rattle.gm_trees.specs.Xz.{xz_shape};
ghost use Rattle.gm_trees.specs.Z.{z_shape};
ghost use Rattle.gm_types.specs.Specification.{z3_bits_of, precision_of, period_of};
ghost use Rattle.gm_plan.specs.KeyRanges as spec;
ghost use Rattle.gm_plan.specs.KeyRanges.{bin_range, bin_ranges, space_ranges, span_of_bins};
ghost use Rattle.gm_plan.specs.Known.{IsFound, IsKnown};
ghost use Rattle.gm_plan.specs.Windows.{windows_in};

use crate::bins::bins_of;
use crate::windows::windows_in;
use gm_base::{Items, NoMemory};
use gm_bounds::{Interval, Range, RangeList};
use gm_calendar::Period;
use gm_geom::Box2;
use gm_split::{Split, split};
use gm_trees::{Steps, Tree, Window, XzTree, ZTree};
use gm_types::FeatureType;
use std::alloc::Global;
use std::marker::Brand;
use std::sync::ledger::{Blank, Ledger};

// Boxes and intervals, and the period and the bits of their cells.
#[derive(Clone, Copy, Debug)]
pub(crate) struct Extents<'a> {
    period: Period,
    bits: u32,
    boxes: &'a [Box2],
    intervals: &'a [Interval],
}

// Windows, and what was found for them.
#[derive(Drop)]
pub(crate) struct Known {
    windows: Vec<Window>,
    found: Split,
}

/// The ranges of boxes and intervals by the codes of points.
pub(crate) fn z3_ranges(
    alloc: Global,
    of: &FeatureType,
    boxes: &[Box2],
    intervals: &[Interval],
    target: u32,
) -> Result<RangeList, NoMemory>
    requires few_boxes { length boxes.now ≤ 8 }
    requires few_intervals { length intervals.now ≤ 8 }
    requires least { 1 ≤ target }
    requires most { target ≤ 10000 }
    ensures { IfOk result (λ list. list ≡ space_ranges (z_shape 3 (z3_bits_of of.now))
        (period_of of.now) (z3_bits_of of.now) boxes.now intervals.now target) }
{
    let extents = Extents {
        period: of.period(),
        bits: of.z3_bits(),
        boxes,
        intervals,
    };
    match extents.bits {
        8 => ranges_of(alloc, &ZTree::<3, 8>, &extents, target),
        12 => ranges_of(alloc, &ZTree::<3, 12>, &extents, target),
        16 => ranges_of(alloc, &ZTree::<3, 16>, &extents, target),
        _ => ranges_of(alloc, &ZTree::<3, 21>, &extents, target),
    }
}

/// The ranges of boxes and intervals by the codes of extents.
pub(crate) fn xz3_ranges(
    alloc: Global,
    of: &FeatureType,
    boxes: &[Box2],
    intervals: &[Interval],
    target: u32,
) -> Result<RangeList, NoMemory>
    requires few_boxes { length boxes.now ≤ 8 }
    requires few_intervals { length intervals.now ≤ 8 }
    requires least { 1 ≤ target }
    requires most { target ≤ 10000 }
    ensures { IfOk result (λ list. list ≡ space_ranges (xz_shape 3 (precision_of of.now))
        (period_of of.now) (precision_of of.now) boxes.now intervals.now target) }
{
    let extents = Extents {
        period: of.period(),
        bits: of.precision(),
        boxes,
        intervals,
    };
    match extents.bits {
        4 => ranges_of(alloc, &XzTree::<3, 4>, &extents, target),
        8 => ranges_of(alloc, &XzTree::<3, 8>, &extents, target),
        12 => ranges_of(alloc, &XzTree::<3, 12>, &extents, target),
        _ => ranges_of(alloc, &XzTree::<3, 16>, &extents, target),
    }
}

// With no box there is no range, and of more bins than the target one span.
#[tactic(auto, unfolding(crate::specs::KeyRanges::ranges_in_bins))]
fn ranges_of<T: Tree<3>>(
    alloc: Global,
    tree: &T,
    extents: &Extents,
    target: u32,
) -> Result<RangeList, NoMemory>
    requires size { T.IsAllowed tree.now }
    requires least { 1 ≤ target }
    requires most { target ≤ 10000 }
    requires wide { 1 ≤ extents.now.bits }
    requires narrow { extents.now.bits ≤ 31 }
    requires few_boxes { length extents.now.boxes.now ≤ 8 }
    requires few_intervals { length extents.now.intervals.now ≤ 8 }
    ensures { IfOk result (λ list. list ≡ space_ranges (T.shape tree.now) extents.now.period
        extents.now.bits extents.now.boxes.now extents.now.intervals.now target) }
{
    if extents.boxes.is_empty() {
        return Ok(Items::new(alloc));
    }
    let bins = bins_of(alloc, extents.period, extents.intervals)?;
    if bins.len() > target as usize {
        return span_of(alloc, &bins);
    }
    ranges_in_bins::<T, Brand>(alloc, tree, extents, &bins, target, Blank::new(1))
}

// From the first of the bins to the last.
fn span_of(alloc: Global, bins: &[u16]) -> Result<RangeList, NoMemory>
    requires { 1 ≤ length bins.now }
    ensures { IfOk result (λ list. list ≡ span_of_bins bins.now ∷ []) }
{
    let mut list = Vec::new(alloc);
    list.push(Range::Span(bins[0], bins[bins.len() - 1]))?;
    Ok(Items::from_vec(list))
}

// Each bin with its own windows and its part of the target.
#[tactic(auto, unfolding(crate::specs::KeyRanges::ranges_in_bins))]
fn ranges_in_bins<T: Tree<3>, L: Ledger>(
    alloc: Global,
    tree: &T,
    extents: &Extents,
    bins: &[u16],
    target: u32,
    blank: Blank,
) -> Result<RangeList, NoMemory>
    requires name { blank.name ≡ L.name }
    requires parts { blank.parts ≡ L.parts }
    requires some { 0 < blank.parts }
    requires size { T.IsAllowed tree.now }
    requires most { target ≤ 10000 }
    requires wide { 1 ≤ extents.now.bits }
    requires narrow { extents.now.bits ≤ 31 }
    requires few_boxes { length extents.now.boxes.now ≤ 8 }
    requires few_intervals { length extents.now.intervals.now ≤ 8 }
    requires few_bins { length bins.now ≤ target }
    requires numbered { All (λ bin. bin ≤ last_of extents.now.period) bins.now }
    ensures { IfOk result (λ list. list ≡ spec.ranges_in_bins (T.shape tree.now)
        (windows_in extents.now.period extents.now.bits
        extents.now.boxes.now extents.now.intervals.now)
        bins.now target) }
{
    let mut list = Vec::new(alloc);
    if bins.is_empty() {
        return Ok(Items::from_vec(list));
    }
    let part = target / bins.len() as u32;
    let mut steps = Steps::<L>::new(blank);
    let mut known = Vec::new(alloc);
    'bins: for bin in bins {
        let windows = windows_of(alloc, extents, *bin)?;
        push_bin(
            alloc, tree, &mut known, windows, part, *bin, &mut steps, &mut list,
        )?;
    }
    Ok(Items::from_vec(list))
}

// The windows in a bin, of which there are few.
fn windows_of(alloc: Global, extents: &Extents, bin_number: u16) -> Result<Vec<Window>, NoMemory>
    requires numbered { bin_number ≤ last_of extents.now.period }
    requires wide { 1 ≤ extents.now.bits }
    requires narrow { extents.now.bits ≤ 31 }
    requires few_boxes { length extents.now.boxes.now ≤ 8 }
    requires few_intervals { length extents.now.intervals.now ≤ 8 }
    ensures value { IfOk result (λ windows. windows.items ≡ windows_in extents.now.period
        extents.now.bits extents.now.boxes.now extents.now.intervals.now bin_number) }
    ensures few { IfOk result (λ windows. length windows.items ≤ 64) }
{
    let windows = windows_in(
        alloc,
        extents.period,
        extents.bits,
        extents.boxes,
        extents.intervals,
        bin_number,
    )?;
    Ok(windows)
}

// Adds the ranges of a bin. Windows that were met before are not decomposed again.
#[tactic(auto, unfolding(crate::specs::KeyRanges::bin_ranges))]
fn push_bin<T: Tree<3>, L: Ledger>(
    alloc: Global,
    tree: &T,
    known: &mut Vec<Known>,
    windows: Vec<Window>,
    target: u32,
    bin_number: u16,
    steps: &mut Steps<L>,
    list: &mut Vec<Range>,
) -> Result<(), NoMemory>
    requires size { T.IsAllowed tree.now }
    requires least { 1 ≤ target }
    requires most { target ≤ 10000 }
    requires windows { length windows.items ≤ 64 }
    requires known { All (IsKnown (T.shape tree.now) target) known.old.items }
    ensures list { OnOk result (list.new.items ≡ list.old.items
        ++ bin_ranges (T.shape tree.now) bin_number windows.items target) }
    ensures known { OnOk result (All (IsKnown (T.shape tree.now) target) known.new.items) }
{
    if let Some(found) = found_for(known, &windows) {
        return push_ranges(list, bin_number, found);
    }
    let found = split(alloc, tree, &windows, target, steps)?;
    push_ranges(list, bin_number, &found)?;
    known.push(Known { windows, found })?;
    Ok(())
}

// What was found for the same windows before.
fn found_for<'a>(known: &'a [Known], windows: &[Window]) -> Option<&'a Split>
    ensures { (s : Shape) (target : ℕ) → All (IsKnown s target) known.now
        → IfSome result (λ found. IsFound s target windows.now found.now) }
{
    'known: for one in known {
        if are_same(&one.windows, windows) {
            return Some(&one.found);
        }
    }
    None
}

fn are_same(one: &[Window], other: &[Window]) -> bool
    ensures { IsTrue result → one.now ≡ other.now }
{
    if one.len() != other.len() {
        return false;
    }
    'windows: for i in 0..one.len() {
        if one[i] != other[i] {
            return false;
        }
    }
    true
}

// Adds the runs that were found, as ranges of a bin.
fn push_ranges(list: &mut Vec<Range>, bin_number: u16, found: &Split) -> Result<(), NoMemory>
    ensures { OnOk result (list.new.items ≡ list.old.items
        ++ map (bin_range bin_number found.now.level) found.now.runs) }
{
    'runs: for i in 0..found.runs.count() {
        let (low, high) = found.runs.at(i);
        list.push(Range::InBin(bin_number, low, high, found.level))?;
    }
    Ok(())
}
