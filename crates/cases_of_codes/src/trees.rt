// Cases of the nodes of trees.
ghost use Rattle.std.specs.Prelude.{◌≡◌, ◌<◌};

use crate::words;
use gm_base::NoMemory;
use gm_trees::{Node, Node3, Steps, Tree, XzTree, ZTree};
use std::alloc::Global;
use std::marker::Brand;
use std::sync::ledger::{Blank, Ledger};

/// The node at the end of a path in the tree of this name.
pub fn answer(alloc: Global, rest: &str) -> Result<String, NoMemory> {
    let (tree, path) = words::split(rest);
    let path = words::numbers(alloc, path)?;
    match tree {
        "z2_31" => flat::<_, Brand>(alloc, &ZTree::<2, 31>, &path, Blank::new(1)),
        "z3_21" => deep::<_, Brand>(alloc, &ZTree::<3, 21>, &path, Blank::new(1)),
        "xz2_4" => flat::<_, Brand>(alloc, &XzTree::<2, 4>, &path, Blank::new(1)),
        "xz3_12" => deep::<_, Brand>(alloc, &XzTree::<3, 12>, &path, Blank::new(1)),
        _ => words::text(alloc, "no such tree"),
    }
}

// The node at the end of a path of child numbers, as far as the tree goes.
fn flat<T: Tree<2>, L: Ledger>(
    alloc: Global,
    tree: &T,
    path: &[u32],
    blank: Blank,
) -> Result<String, NoMemory>
    requires name { blank.name ≡ L.name }
    requires parts { blank.parts ≡ L.parts }
    requires some { 0 < blank.parts }
    requires size { T.IsAllowed tree.now }
{
    let mut steps = Steps::<L>::new(blank);
    let mut node = tree.root();
    for q in path {
        if node.level < tree.depth() && *q < 4 {
            node = tree.child(&node, *q, &mut steps);
        }
    }
    print::<2, T>(alloc, tree, &node)
}

// The same in space and time.
fn deep<T: Tree<3>, L: Ledger>(
    alloc: Global,
    tree: &T,
    path: &[u32],
    blank: Blank,
) -> Result<String, NoMemory>
    requires name { blank.name ≡ L.name }
    requires parts { blank.parts ≡ L.parts }
    requires some { 0 < blank.parts }
    requires size { T.IsAllowed tree.now }
{
    let mut steps = Steps::<L>::new(blank);
    let mut node = tree.root();
    for q in path {
        if node.level < tree.depth() && *q < 8 {
            node = tree.child(&node, *q, &mut steps);
        }
    }
    print::<3, T>(alloc, tree, &node)
}

// The level of a node, its codes, its own code, and its reach.
fn print<const D: usize, T: Tree<D>>(
    alloc: Global,
    tree: &T,
    node: &Node,
) -> Result<String, NoMemory>
    requires { T.Comes tree.now node.now }
{
    let last = tree.last(node);
    let own = tree.own(node);
    let (low, high) = tree.reach(node);
    let low = cell::<D>(alloc, low)?;
    let high = cell::<D>(alloc, high)?;
    let codes = format!(in alloc; "level {}, {}-{last}, own {own:?}", node.level, node.first)?;
    Ok(format!(in alloc; "{codes}, reach {low}-{high}")?)
}

fn cell<const D: usize>(alloc: Global, cell: Node3) -> Result<String, NoMemory> {
    if D == 3 {
        return Ok(format!(in alloc; "{},{},{}", cell.x, cell.y, cell.t)?);
    }
    Ok(format!(in alloc; "{},{}", cell.x, cell.y)?)
}
