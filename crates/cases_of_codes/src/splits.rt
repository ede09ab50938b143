// Cases of decompositions.
ghost use Rattle.std.specs.Prelude.{◌≤◌, length};

use crate::{runs, words};
use gm_base::NoMemory;
use gm_split::{Split, split_in_plane, split_in_space};
use gm_trees::{Tree, Window, XzTree, ZTree};
use std::alloc::Global;
use std::marker::Brand;
use std::sync::ledger::Blank;

/// The runs of windows by the tree of this name, and by a target.
pub fn answer(alloc: Global, rest: &str) -> Result<String, NoMemory> {
    let (tree, rest) = words::split(rest);
    let (target, rest) = words::split(rest);
    let windows = words::windows(alloc, rest)?;
    match target.parse::<u32>() {
        Ok(target) if 1 <= target && target <= 10000 && windows.len() <= 64 => by_tree(
            alloc, tree, target, &windows,
        ),
        _ => words::text(alloc, "no such split"),
    }
}

fn by_tree(alloc: Global, tree: &str, target: u32, windows: &[Window]) -> Result<String, NoMemory>
    requires least { 1 ≤ target }
    requires most { target ≤ 10000 }
    requires windows { length windows.now ≤ 64 }
{
    match tree {
        "z2_4" => plane(alloc, &ZTree::<2, 4>, windows, target),
        "z2_8" => plane(alloc, &ZTree::<2, 8>, windows, target),
        "z2_16" => plane(alloc, &ZTree::<2, 16>, windows, target),
        "z2_24" => plane(alloc, &ZTree::<2, 24>, windows, target),
        "z2_31" => plane(alloc, &ZTree::<2, 31>, windows, target),
        "z3_8" => space(alloc, &ZTree::<3, 8>, windows, target),
        "z3_12" => space(alloc, &ZTree::<3, 12>, windows, target),
        "z3_16" => space(alloc, &ZTree::<3, 16>, windows, target),
        "z3_21" => space(alloc, &ZTree::<3, 21>, windows, target),
        "xz2_4" => plane(alloc, &XzTree::<2, 4>, windows, target),
        "xz2_8" => plane(alloc, &XzTree::<2, 8>, windows, target),
        "xz2_12" => plane(alloc, &XzTree::<2, 12>, windows, target),
        "xz2_16" => plane(alloc, &XzTree::<2, 16>, windows, target),
        "xz3_4" => space(alloc, &XzTree::<3, 4>, windows, target),
        "xz3_8" => space(alloc, &XzTree::<3, 8>, windows, target),
        "xz3_12" => space(alloc, &XzTree::<3, 12>, windows, target),
        "xz3_16" => space(alloc, &XzTree::<3, 16>, windows, target),
        _ => words::text(alloc, "no such tree"),
    }
}

fn plane<T: Tree<2>>(
    alloc: Global,
    tree: &T,
    windows: &[Window],
    target: u32,
) -> Result<String, NoMemory>
    requires size { T.IsAllowed tree.now }
    requires least { 1 ≤ target }
    requires most { target ≤ 10000 }
    requires windows { length windows.now ≤ 64 }
{
    let split = split_in_plane::<_, Brand>(alloc, tree, windows, target, Blank::new(1))?;
    print(alloc, &split)
}

fn space<T: Tree<3>>(
    alloc: Global,
    tree: &T,
    windows: &[Window],
    target: u32,
) -> Result<String, NoMemory>
    requires size { T.IsAllowed tree.now }
    requires least { 1 ≤ target }
    requires most { target ≤ 10000 }
    requires windows { length windows.now ≤ 64 }
{
    let split = split_in_space::<_, Brand>(alloc, tree, windows, target, Blank::new(1))?;
    print(alloc, &split)
}

// The level, how many codes there are, and the runs.
fn print(alloc: Global, split: &Split) -> Result<String, NoMemory> {
    let mut codes = 0u64;
    for i in 0..split.runs.count() {
        let (low, high) = split.runs.at(i);
        codes = codes.saturating_add(high.saturating_sub(low).saturating_add(1));
    }
    let runs = runs::print(alloc, &split.runs)?;
    Ok(format!(in alloc; "level {}, {codes} codes, {runs}", split.level)?)
}
