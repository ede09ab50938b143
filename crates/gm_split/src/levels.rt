// From the root down, a level at a time.
ghost use Rattle.std.specs.Prelude.{◌≡◌, ◌<◌, ◌≤◌, ◌+◌, ◌*◌, ◌^◌, ◌⊎◌, length, IfOk};
ghost use Rattle.gm_split.specs.Explained.{explained_runs, stop_level};
ghost use Rattle.gm_split.specs.Front.{HasFirst, IsStopAt};
ghost use Rattle.gm_split.specs.RunLaws.{RunLaws};

use crate::Split;
use crate::front::Front;
use crate::opening::{add, open_all, runs_of};
use gm_base::NoMemory;
use gm_runs::{same_numbers_same_runs, tests_have_maximal_runs};
use gm_trees::{Steps, Tree, Window};
use std::alloc::Global;
use std::mem::swap;
use std::sync::ledger::{Blank, Ledger};

// What lists of runs keep.
pub(crate) fn run_laws()
    ensures { RunLaws }
{
    same_numbers_same_runs();
    tests_have_maximal_runs();
}

// The level of the root.
fn start<const D: usize, T: Tree<D>>(
    alloc: Global,
    tree: &T,
    windows: &[Window],
) -> Result<Front, NoMemory>
    requires size { T.IsAllowed tree.now }
    requires few { length windows.now ≤ 64 }
    ensures { IfOk result (λ front. HasFirst D (T.shape tree.now) windows.now front) }
{
    let mut front = Front::new(alloc);
    let root = tree.root();
    add(tree, &root, windows, u64::MAX, &mut front)?;
    front.close()?;
    Ok(front)
}

// Pieces, and their level.
#[derive(Drop)]
struct Found {
    front: Front,
    level: u32,
}

// The pieces of the stop level. Each turn opens the partial nodes of a level that qualifies, and
// stops where the next level does not. Where there are none, no deeper level has other codes.
fn descend<const D: usize, T: Tree<D>, L: Ledger>(
    alloc: Global,
    tree: &T,
    windows: &[Window],
    target: u32,
    steps: &mut Steps<L>,
) -> Result<Found, NoMemory>
    requires dimensions { (D ≡ 2) ⊎ (D ≡ 3) }
    requires size { T.IsAllowed tree.now }
    requires least { 1 ≤ target }
    requires most { target ≤ 10000 }
    requires windows { length windows.now ≤ 64 }
    ensures stop { IfOk result
        (λ found. IsStopAt D (T.shape tree.now) windows.now (T.Comes tree.now) target
        found.level found.front.pieces.items) }
    ensures steps { steps.new ≤ steps.old + (T.shape tree.now).depth * (2 ^ D * (4 * target)) }
{
    run_laws();
    let mut now = start(alloc, tree, windows)?;
    let mut next = Front::new(alloc);
    let depth = tree.depth();
    let mut level = 0u32;
    while level < depth {
        if now.partial == 0 {
            return Ok(Found {
                front: now,
                level: depth,
            });
        }
        let qualifies = open_all(tree, &now.pieces, windows, target, steps, &mut next, level)?;
        if !qualifies {
            return Ok(Found { front: now, level });
        }
        swap(&mut now, &mut next);
        level += 1;
    }
    Ok(Found { front: now, level })
}

/// The codes near the windows, as at most `target` runs: exactly the maximal runs of the level set
/// at the stop level, and that level. With no window there is no run, and the level is the depth.
/// It takes a step for each call of `child`, also where it answers `NoMemory`.
pub fn split<const D: usize, T: Tree<D>, L: Ledger>(
    alloc: Global,
    tree: &T,
    windows: &[Window],
    target: u32,
    steps: &mut Steps<L>,
) -> Result<Split, NoMemory>
    requires dimensions { (D ≡ 2) ⊎ (D ≡ 3) }
    requires size { T.IsAllowed tree.now }
    requires least { 1 ≤ target }
    requires most { target ≤ 10000 }
    requires windows { length windows.now ≤ 64 }
    ensures level { IfOk result
        (λ split. split.level ≡ stop_level D (T.shape tree.now) windows.now target) }
    ensures runs { IfOk result
        (λ split. split.runs ≡ explained_runs D (T.shape tree.now) windows.now target) }
    ensures few { IfOk result (λ split. length split.runs ≤ target) }
    ensures steps { steps.new ≤ steps.old + (T.shape tree.now).depth * (2 ^ D * (4 * target)) }
{
    run_laws();
    let found = descend(alloc, tree, windows, target, steps)?;
    let runs = runs_of(alloc, tree, &found.front.pieces)?;
    Ok(Split {
        runs,
        level: found.level,
    })
}

/// The same in the plane, for a caller that counts no steps.
pub fn split_in_plane<T: Tree<2>, L: Ledger>(
    alloc: Global,
    tree: &T,
    windows: &[Window],
    target: u32,
    blank: Blank,
) -> Result<Split, NoMemory>
    requires name { blank.name ≡ L.name }
    requires parts { blank.parts ≡ L.parts }
    requires some { 0 < blank.parts }
    requires size { T.IsAllowed tree.now }
    requires least { 1 ≤ target }
    requires most { target ≤ 10000 }
    requires windows { length windows.now ≤ 64 }
    ensures level { IfOk result
        (λ split. split.level ≡ stop_level 2 (T.shape tree.now) windows.now target) }
    ensures runs { IfOk result
        (λ split. split.runs ≡ explained_runs 2 (T.shape tree.now) windows.now target) }
    ensures few { IfOk result (λ split. length split.runs ≤ target) }
{
    let mut steps = Steps::<L>::new(blank);
    split(alloc, tree, windows, target, &mut steps)
}

/// The same in space and time, for a caller that counts no steps.
pub fn split_in_space<T: Tree<3>, L: Ledger>(
    alloc: Global,
    tree: &T,
    windows: &[Window],
    target: u32,
    blank: Blank,
) -> Result<Split, NoMemory>
    requires name { blank.name ≡ L.name }
    requires parts { blank.parts ≡ L.parts }
    requires some { 0 < blank.parts }
    requires size { T.IsAllowed tree.now }
    requires least { 1 ≤ target }
    requires most { target ≤ 10000 }
    requires windows { length windows.now ≤ 64 }
    ensures level { IfOk result
        (λ split. split.level ≡ stop_level 3 (T.shape tree.now) windows.now target) }
    ensures runs { IfOk result
        (λ split. split.runs ≡ explained_runs 3 (T.shape tree.now) windows.now target) }
    ensures few { IfOk result (λ split. length split.runs ≤ target) }
{
    let mut steps = Steps::<L>::new(blank);
    split(alloc, tree, windows, target, &mut steps)
}
