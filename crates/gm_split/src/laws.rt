// What the decomposition's definitions give.
ghost use Rattle.std.specs.Prelude.{◌≡◌, ◌<◌, ◌≤◌, ◌↔◌, ◌+◌, ℕ, List};
ghost use Rattle.std.specs.Prelude.{[], true, length, slice_index_or, Any};
ghost use Rattle.gm_curve.specs.Curve.{z_code};
ghost use Rattle.gm_curve.specs.Xz.{xz_code};
ghost use Rattle.gm_runs.specs.Runs.{AreRuns, AreMaximalRuns, HasNumber};
ghost use Rattle.gm_trees.specs.declared.window.Node3.{Node3};
ghost use Rattle.gm_trees.specs.declared.window.Window.{Window};
ghost use Rattle.gm_trees.specs.Tree.{HasCode, walk};
ghost use Rattle.gm_trees.specs.Paths.{AreCoordinates, cell_of};
ghost use Rattle.gm_trees.specs.Z.{z_shape, IsZSize};
ghost use Rattle.gm_trees.specs.Xz.{xz_shape, IsXzSize};
ghost use Rattle.gm_split.specs.Levels.{InLevelSet, IsNodeOfCode, IsOneStem, IsStop};
ghost use Rattle.gm_split.specs.Explained.{explained_runs, level_runs, stop_level};
ghost use Rattle.gm_split.specs.Windows.{meets, overlaps};

use crate::levels::run_laws;
use gm_runs::{numbers_stand_in_runs, runs_rise};
use gm_trees::{Tree, XzTree, ZTree, object_is_in_reach, z_cell_by_code};

/// Each code of the tree has exactly one stem at each level.
pub fn codes_have_one_stem<const D: usize, T: Tree<D>>(tree: &T)
    requires { T.IsAllowed tree.now }
    ensures { (l c : ℕ) → l ≤ (T.shape tree.now).depth
        → HasCode (T.shape tree.now) (T.shape tree.now).root c
        → (path : List ℕ) × IsOneStem D (T.shape tree.now) l c path }
{}

/// The runs of a level are the maximal runs of its level set.
pub fn level_runs_are_level_sets<const D: usize, T: Tree<D>>(tree: &T)
    requires { T.IsAllowed tree.now }
    ensures { (ws : List Window) (l : ℕ) → l ≤ (T.shape tree.now).depth
        → AreMaximalRuns (level_runs D (T.shape tree.now) ws l)
        (InLevelSet D (T.shape tree.now) ws l) }
{
    run_laws();
}

/// The stop level is the greatest level up to the depth such that every level up to it qualifies.
pub fn stop_level_is_the_stop<const D: usize, T: Tree<D>>(tree: &T)
    requires { T.IsAllowed tree.now }
    ensures { (ws : List Window) (target : ℕ) → 1 ≤ target
        → IsStop D (T.shape tree.now) ws target (stop_level D (T.shape tree.now) ws target) }
{
    run_laws();
}

/// The explained runs are runs: one ends at or behind its low end, and the next begins more than
/// one past its high end. So they rise and share no code.
pub fn explained_runs_rise<const D: usize, T: Tree<D>>(tree: &T)
    ensures runs { (ws : List Window) (target : ℕ)
        → AreRuns (explained_runs D (T.shape tree.now) ws target) }
    ensures rise { (ws : List Window) (target i : ℕ)
        → let runs = explained_runs D (T.shape tree.now) ws target in
        i < length runs → (slice_index_or runs i (0, 0)).0 ≤ (slice_index_or runs i (0, 0)).1 }
    ensures apart { (ws : List Window) (target i : ℕ)
        → let runs = explained_runs D (T.shape tree.now) ws target in
        i + 1 < length runs
        → (slice_index_or runs i (0, 0)).1 + 1 < (slice_index_or runs (i + 1) (0, 0)).0 }
{
    run_laws();
    runs_rise();
}

/// Every code of the explained runs is one of the tree's, and so are the ends of each run.
pub fn explained_runs_have_codes<const D: usize, T: Tree<D>>(tree: &T)
    requires { T.IsAllowed tree.now }
    ensures codes { (ws : List Window) (target c : ℕ) → 1 ≤ target
        → HasNumber (explained_runs D (T.shape tree.now) ws target) c
        → HasCode (T.shape tree.now) (T.shape tree.now).root c }
    ensures ends { (ws : List Window) (target i : ℕ) → 1 ≤ target
        → let runs = explained_runs D (T.shape tree.now) ws target in i < length runs
        → HasCode (T.shape tree.now) (T.shape tree.now).root (slice_index_or runs i (0, 0)).0
        × HasCode (T.shape tree.now) (T.shape tree.now).root (slice_index_or runs i (0, 0)).1 }
{
    run_laws();
    runs_rise();
    numbers_stand_in_runs();
}

/// With no window there is no run, and the level is the depth.
pub fn no_window_no_run<const D: usize, T: Tree<D>>(tree: &T)
    ensures runs { (target : ℕ) → explained_runs D (T.shape tree.now) [] target ≡ [] }
    ensures level { (target : ℕ)
        → stop_level D (T.shape tree.now) [] target ≡ (T.shape tree.now).depth }
{
    run_laws();
}

/// A reach meets a list of windows exactly where it overlaps one of them.
pub fn meets_where_one_overlaps()
    ensures { (dimensions : ℕ) (ws : List Window) (reach : Node3 × Node3)
        → (meets dimensions ws reach ≡ true) ↔ Any (λ w. overlaps dimensions reach w ≡ true) ws }
{}

/// Covering: a code is in the explained runs where the reach of its node overlaps a window.
pub fn explained_runs_cover<const D: usize, T: Tree<D>>(tree: &T)
    requires { T.IsAllowed tree.now }
    ensures { (ws : List Window) (target c : ℕ) (path : List ℕ) → 1 ≤ target
        → IsNodeOfCode D (T.shape tree.now) c path
        → (let s = T.shape tree.now in meets D ws (s.reach (walk s s.root path)) ≡ true)
        → HasNumber (explained_runs D (T.shape tree.now) ws target) c }
{
    run_laws();
}

/// Tightness: at full depth every code in the explained runs has a node whose reach overlaps a
/// window.
pub fn runs_are_tight<const D: usize, T: Tree<D>>(tree: &T)
    requires { T.IsAllowed tree.now }
    ensures { (ws : List Window) (target c : ℕ) → 1 ≤ target
        → stop_level D (T.shape tree.now) ws target ≡ (T.shape tree.now).depth
        → HasNumber (explained_runs D (T.shape tree.now) ws target) c
        → (path : List ℕ) × IsNodeOfCode D (T.shape tree.now) c path
        × (let s = T.shape tree.now in meets D ws (s.reach (walk s s.root path)) ≡ true) }
{
    run_laws();
}

/// The Z code of every point whose cell is in a window is in the explained runs.
pub fn points_are_covered<const D: usize, const B: u32>()
    requires { IsZSize D B }
    ensures { (ws : List Window) (target : ℕ) (at : List ℕ) → 1 ≤ target → AreCoordinates D B at
        → meets D ws (cell_of at, cell_of at) ≡ true
        → HasNumber (explained_runs D (z_shape D B) ws target) (z_code D B at) }
{
    z_cell_by_code::<D, B>();
    explained_runs_cover(&ZTree::<D, B>);
}

/// The XZ code of every object whose box of cells overlaps a window is in the explained runs.
pub fn objects_are_covered<const D: usize, const G: u32>()
    requires { IsXzSize D G }
    ensures { (ws : List Window) (target : ℕ) (low high : List ℕ) → 1 ≤ target
        → AreCoordinates D G low → AreCoordinates D G high
        → meets D ws (cell_of low, cell_of high) ≡ true
        → HasNumber (explained_runs D (xz_shape D G) ws target) (xz_code D G low high) }
{
    object_is_in_reach::<D, G>();
    explained_runs_cover(&XzTree::<D, G>);
}
