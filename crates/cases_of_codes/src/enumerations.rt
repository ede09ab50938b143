// Each answer at trees of few levels, compared with the enumeration.
ghost use Rattle.std.specs.Prelude.{◌≤◌, length};

use crate::enumerated::{Shape, cell, levels, stop};
use crate::lists::lists_for;
use crate::words;
use gm_base::NoMemory;
use gm_split::{Split, split_in_plane, split_in_space};
use gm_trees::{Tree, Window, XzTree, ZTree};
use std::alloc::Global;
use std::marker::Brand;
use std::sync::ledger::Blank;

const TARGETS: [u32; 7] = [1, 2, 3, 4, 6, 10, 10_000];

/// How many answers were compared, and how many of them are as enumerated.
#[derive(Clone, Copy, Debug, PartialEq, Eq)]
struct Count {
    all: u64,
    same: u64,
}

pub fn answer(alloc: Global, word: &str, tree: &str) -> Result<String, NoMemory> {
    let mut count = Count { all: 0, same: 0 };
    if word == "enumerate_many" {
        as_many_as_may_be(alloc, tree, &mut count)?;
    } else {
        by_tree(alloc, tree, &mut count)?;
    }
    Ok(format!(in alloc; "{} of {} as enumerated", count.same, count.all)?)
}

fn by_tree(alloc: Global, tree: &str, count: &mut Count) -> Result<(), NoMemory> {
    match tree {
        "z2_1" => plane(alloc, &ZTree::<2, 1>, points(2, 1), count),
        "z2_2" => plane(alloc, &ZTree::<2, 2>, points(2, 2), count),
        "z2_3" => plane(alloc, &ZTree::<2, 3>, points(2, 3), count),
        "z2_4" => plane(alloc, &ZTree::<2, 4>, points(2, 4), count),
        "xz2_1" => plane(alloc, &XzTree::<2, 1>, extents(2, 1), count),
        "xz2_2" => plane(alloc, &XzTree::<2, 2>, extents(2, 2), count),
        "xz2_3" => plane(alloc, &XzTree::<2, 3>, extents(2, 3), count),
        "xz2_4" => plane(alloc, &XzTree::<2, 4>, extents(2, 4), count),
        "z3_1" => space(alloc, &ZTree::<3, 1>, points(3, 1), count),
        "z3_2" => space(alloc, &ZTree::<3, 2>, points(3, 2), count),
        "z3_3" => space(alloc, &ZTree::<3, 3>, points(3, 3), count),
        "z3_4" => space(alloc, &ZTree::<3, 4>, points(3, 4), count),
        "xz3_1" => space(alloc, &XzTree::<3, 1>, extents(3, 1), count),
        "xz3_2" => space(alloc, &XzTree::<3, 2>, extents(3, 2), count),
        "xz3_3" => space(alloc, &XzTree::<3, 3>, extents(3, 3), count),
        "xz3_4" => space(alloc, &XzTree::<3, 4>, extents(3, 4), count),
        _ => Ok(()),
    }
}

// The shape of a Z tree.
fn points(dimensions: u32, depth: u32) -> Shape {
    Shape {
        dimensions,
        depth,
        extents: false,
    }
}

// The shape of an XZ tree.
fn extents(dimensions: u32, depth: u32) -> Shape {
    Shape {
        dimensions,
        depth,
        extents: true,
    }
}

// Compares the answers of a tree of the plane with the enumeration.
fn plane<T: Tree<2>>(
    alloc: Global,
    tree: &T,
    shape: Shape,
    count: &mut Count,
) -> Result<(), NoMemory>
    requires { T.IsAllowed tree.now }
{
    for list in &lists_for(alloc, &shape)? {
        let windows = &list.windows[..list.count.min(3)];
        compare_in_plane(alloc, tree, shape, windows, count)?;
    }
    Ok(())
}

// The same for one list of windows.
fn compare_in_plane<T: Tree<2>>(
    alloc: Global,
    tree: &T,
    shape: Shape,
    windows: &[Window],
    count: &mut Count,
) -> Result<(), NoMemory>
    requires size { T.IsAllowed tree.now }
    requires windows { length windows.now ≤ 64 }
{
    let levels = levels(alloc, &shape, windows)?;
    for target in TARGETS {
        if let Some(level) = stop(&levels, target) {
            if 1 <= target && target <= 10_000 {
                let split = split_in_plane::<_, Brand>(
                    alloc,
                    tree,
                    windows,
                    target,
                    Blank::new(1),
                )?;
                compare(&split, level.level, &level.runs, count);
            }
        }
    }
    Ok(())
}

// The same with a tree of space and time.
fn space<T: Tree<3>>(
    alloc: Global,
    tree: &T,
    shape: Shape,
    count: &mut Count,
) -> Result<(), NoMemory>
    requires { T.IsAllowed tree.now }
{
    for list in &lists_for(alloc, &shape)? {
        let windows = &list.windows[..list.count.min(3)];
        let levels = levels(alloc, &shape, windows)?;
        for target in TARGETS {
            if let Some(level) = stop(&levels, target) {
                if 1 <= target && target <= 10_000 {
                    let split = split_in_space::<_, Brand>(
                        alloc,
                        tree,
                        windows,
                        target,
                        Blank::new(1),
                    )?;
                    compare(&split, level.level, &level.runs, count);
                }
            }
        }
    }
    Ok(())
}

// Counts an answer, and whether it has this level and these runs.
fn compare(split: &Split, level: u32, runs: &[(u64, u64)], count: &mut Count) {
    let mut same = split.level == level && split.runs.count() == runs.len();
    for i in 0..runs.len() {
        if i < split.runs.count() {
            same = same && split.runs.at(i) == runs[i];
        }
    }
    count.all = count.all.saturating_add(1);
    count.same = count.same.saturating_add(u64::from(same));
}

// By as many windows as a list may have: every fourth cell by the Z code.
fn as_many_as_may_be(alloc: Global, tree: &str, count: &mut Count) -> Result<(), NoMemory> {
    let shape = points(2, 4);
    let mut windows = Vec::new(alloc);
    for number in 0..64u64 {
        let one = cell(&shape, 4, 4 * number);
        windows.push(Window {
            low: one,
            high: one,
        })?;
    }
    let windows = &windows[..windows.len().min(64)];
    match tree {
        "z2_4" => compare_in_plane(alloc, &ZTree::<2, 4>, shape, windows, count),
        "xz2_4" => compare_in_plane(alloc, &XzTree::<2, 4>, extents(2, 4), windows, count),
        _ => Ok(()),
    }
}
