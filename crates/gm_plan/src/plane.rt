// Ranges of windows in the plane.
ghost use Rattle.std.specs.Prelude.{◌≡◌, ◌≤◌, ◌<◌, length, map, IfOk};
ghost use Rattle.gm_trees.specs.Xz.{xz_shape};
ghost use Rattle.gm_trees.specs.Z.{z_shape};
ghost use Rattle.gm_types.specs.Specification.{z2_bits_of, precision_of};
ghost use Rattle.gm_plan.specs.KeyRanges.{code_range, plane_ranges};
ghost use Rattle.gm_plan.specs.Windows as spec;

use crate::windows::windows_of;
use gm_base::{Items, NoMemory};
use gm_bounds::{Range, RangeList};
use gm_geom::Box2;
use gm_split::{Split, split};
use gm_trees::{Steps, Tree, Window, XzTree, ZTree};
use gm_types::FeatureType;
use std::alloc::Global;
use std::marker::Brand;
use std::sync::ledger::{Blank, Ledger};

/// The ranges of boxes by the codes of points.
pub(crate) fn z2_ranges(
    alloc: Global,
    of: &FeatureType,
    boxes: &[Box2],
    target: u32,
) -> Result<RangeList, NoMemory>
    requires few { length boxes.now ≤ 64 }
    requires least { 1 ≤ target }
    requires most { target ≤ 10000 }
    ensures { IfOk result (λ list. list
        ≡ plane_ranges (z_shape 2 (z2_bits_of of.now))
        (spec.windows_of (z2_bits_of of.now) boxes.now) target) }
{
    let bits = of.z2_bits();
    let windows = windows_of(alloc, bits, boxes)?;
    match bits {
        8 => ranges_of(alloc, &ZTree::<2, 8>, &windows, target),
        16 => ranges_of(alloc, &ZTree::<2, 16>, &windows, target),
        24 => ranges_of(alloc, &ZTree::<2, 24>, &windows, target),
        _ => ranges_of(alloc, &ZTree::<2, 31>, &windows, target),
    }
}

/// The ranges of boxes by the codes of extents.
pub(crate) fn xz2_ranges(
    alloc: Global,
    of: &FeatureType,
    boxes: &[Box2],
    target: u32,
) -> Result<RangeList, NoMemory>
    requires few { length boxes.now ≤ 64 }
    requires least { 1 ≤ target }
    requires most { target ≤ 10000 }
    ensures { IfOk result (λ list. list
        ≡ plane_ranges (xz_shape 2 (precision_of of.now))
        (spec.windows_of (precision_of of.now) boxes.now) target) }
{
    let bits = of.precision();
    let windows = windows_of(alloc, bits, boxes)?;
    match bits {
        4 => ranges_of(alloc, &XzTree::<2, 4>, &windows, target),
        8 => ranges_of(alloc, &XzTree::<2, 8>, &windows, target),
        12 => ranges_of(alloc, &XzTree::<2, 12>, &windows, target),
        _ => ranges_of(alloc, &XzTree::<2, 16>, &windows, target),
    }
}

// The explained runs of windows.
fn ranges_of<T: Tree<2>>(
    alloc: Global,
    tree: &T,
    windows: &[Window],
    target: u32,
) -> Result<RangeList, NoMemory>
    requires size { T.IsAllowed tree.now }
    requires least { 1 ≤ target }
    requires most { target ≤ 10000 }
    requires windows { length windows.now ≤ 64 }
    ensures { IfOk result (λ list. list ≡ plane_ranges (T.shape tree.now) windows.now target) }
{
    counted::<T, Brand>(alloc, tree, windows, target, Blank::new(1))
}

// The same, decomposed once, with a ledger of its own.
#[tactic(auto, unfolding(crate::specs::KeyRanges::plane_ranges))]
fn counted<T: Tree<2>, L: Ledger>(
    alloc: Global,
    tree: &T,
    windows: &[Window],
    target: u32,
    blank: Blank,
) -> Result<RangeList, NoMemory>
    requires name { blank.name ≡ L.name }
    requires parts { blank.parts ≡ L.parts }
    requires some { 0 < blank.parts }
    requires size { T.IsAllowed tree.now }
    requires least { 1 ≤ target }
    requires most { target ≤ 10000 }
    requires windows { length windows.now ≤ 64 }
    ensures { IfOk result (λ list. list ≡ plane_ranges (T.shape tree.now) windows.now target) }
{
    let mut steps = Steps::<L>::new(blank);
    let found = split(alloc, tree, windows, target, &mut steps)?;
    let list = code_ranges(alloc, &found)?;
    Ok(Items::from_vec(list))
}

fn code_ranges(alloc: Global, found: &Split) -> Result<Vec<Range>, NoMemory>
    ensures { IfOk result (λ list. list.items ≡ map (code_range found.now.level) found.now.runs) }
{
    let mut list = Vec::with_capacity(alloc, found.runs.count())?;
    'runs: for i in 0..found.runs.count() {
        let (low, high) = found.runs.at(i);
        list.push(Range::Codes(low, high, found.level))?;
    }
    Ok(list)
}
