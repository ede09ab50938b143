// The levels of a tree by their definitions. Every code and every node of every level is looked at,
// with no call of a tree, of runs or of the decomposition. The numbers are small, and operations
// that wrap or stop at a type's end only spare a proof.
ghost use Rattle.std.specs.Prelude.{◌≤◌};

use gm_base::NoMemory;
use gm_trees::{Node3, Window};
use std::alloc::Global;

/// A tree of 2 or 3 dimensions, the level of its deepest nodes, and whether its codes are those of
/// extents (XZ) or of points (Z).
#[derive(Clone, Copy, Debug, PartialEq, Eq)]
pub struct Shape {
    pub dimensions: u32,
    pub depth: u32,
    pub extents: bool,
}

/// A level: the maximal runs of its level set, and how many of its nodes are partial.
#[derive(Debug, Drop)]
pub struct Level {
    pub level: u32,
    pub runs: Vec<(u64, u64)>,
    pub partial: u64,
}

// How many children a node has: each is a half along each dimension.
fn children(shape: &Shape) -> u64
    ensures some { 1 ≤ result }
    ensures few { result ≤ 8 }
{
    if shape.dimensions == 3 { 8 } else { 4 }
}

/// How many nodes a level has.
pub fn nodes(shape: &Shape, level: u32) -> u64 {
    children(shape).saturating_pow(level)
}

// How many codes a node has of its own.
fn own_codes(shape: &Shape) -> u64 {
    u64::from(shape.extents)
}

// How many codes a node has, so many levels above the deepest: there one, and else its own and
// those of its children.
fn codes(shape: &Shape, above: u32) -> u64 {
    let mut codes = 1u64;
    for _ in 0..above {
        codes = codes
            .saturating_mul(children(shape))
            .saturating_add(own_codes(shape));
    }
    codes
}

// The stem of a code at a level, as its own level and its path, whose digits are child numbers.
// From the root down the child is taken that has the code, until a node has it as its own or is of
// the level. The own code of a node is its first. Its children have the others in order, each as
// many.
fn stem(shape: &Shape, code: u64, level: u32) -> (u32, u64) {
    let own = own_codes(shape);
    let mut path = 0u64;
    let mut rest = code;
    for at in 0..level {
        if rest < own {
            return (at, path);
        }
        rest -= own;
        let each = codes(shape, shape.depth.saturating_sub(at + 1)).max(1);
        path = path.wrapping_mul(children(shape)).wrapping_add(rest / each);
        rest %= each;
    }
    (level, path)
}

/// The cell of a node. The bits d of its path's digits are those of the index in dimension d.
pub fn cell(shape: &Shape, level: u32, path: u64) -> Node3 {
    let mut cell = Node3 { x: 0, y: 0, t: 0 };
    let mut rest = path;
    let mut bit = 1u32;
    for _ in 0..level {
        let number = (rest % children(shape)) as u32;
        rest /= children(shape);
        cell.x = cell.x.wrapping_add((number % 2).wrapping_mul(bit));
        cell.y = cell.y.wrapping_add((number / 2 % 2).wrapping_mul(bit));
        cell.t = cell.t.wrapping_add((number / 4).wrapping_mul(bit));
        bit = bit.wrapping_mul(2);
    }
    cell
}

// The box that the objects of a node can touch: its cell, for extents enlarged to twice its side
// and cut at the end of the space.
fn reach(shape: &Shape, level: u32, path: u64) -> Window {
    let cell = cell(shape, level, path);
    let side = 2u32.saturating_pow(shape.depth.saturating_sub(level));
    let last = 2u32.saturating_pow(shape.depth).saturating_sub(1);
    let far = if shape.extents { 2u32 } else { 1 };
    let low = |index: u32| index.wrapping_mul(side);
    let high = |index: u32| last.min(low(index.wrapping_add(far)).wrapping_sub(1));
    Window {
        low: Node3 {
            x: low(cell.x),
            y: low(cell.y),
            t: low(cell.t),
        },
        high: Node3 {
            x: high(cell.x),
            y: high(cell.y),
            t: high(cell.t),
        },
    }
}

// Whether they have a cell in common. In two dimensions t is not looked at.
fn overlaps(shape: &Shape, reach: &Window, window: &Window) -> bool {
    reach.low.x.max(window.low.x) <= reach.high.x.min(window.high.x)
        && reach.low.y.max(window.low.y) <= reach.high.y.min(window.high.y)
        && (shape.dimensions == 2
            || reach.low.t.max(window.low.t) <= reach.high.t.min(window.high.t))
}

// Whether all cells of the reach are in the window.
fn is_inside(shape: &Shape, reach: &Window, window: &Window) -> bool {
    (window.low.x <= reach.low.x && reach.high.x <= window.high.x)
        && (window.low.y <= reach.low.y && reach.high.y <= window.high.y)
        && (shape.dimensions == 2 || window.low.t <= reach.low.t && reach.high.t <= window.high.t)
}

// A code is in the level set where the reach of its stem overlaps a window.
fn is_in_level_set(shape: &Shape, windows: &[Window], level: u32, code: u64) -> bool {
    let (above, path) = stem(shape, code, level);
    let reach = reach(shape, above, path);
    windows.iter().any(|window| overlaps(shape, &reach, window))
}

// The maximal runs of a level set, by one pass over all codes.
fn runs(
    alloc: Global,
    shape: &Shape,
    windows: &[Window],
    level: u32,
) -> Result<Vec<(u64, u64)>, NoMemory> {
    let mut runs = Vec::new(alloc);
    let mut run = None;
    for code in 0..codes(shape, shape.depth) {
        let within = is_in_level_set(shape, windows, level, code);
        match (within, run) {
            (true, None) => run = Some((code, code)),
            (true, Some((first, _))) => run = Some((first, code)),
            (false, Some(ended)) => {
                runs.push(ended)?;
                run = None;
            }
            (false, None) => {}
        }
    }
    if let Some(ended) = run {
        runs.push(ended)?;
    }
    Ok(runs)
}

// A node is partial where its reach overlaps a window and is inside no single one.
fn is_partial(shape: &Shape, windows: &[Window], level: u32, path: u64) -> bool {
    let reach = reach(shape, level, path);
    windows.iter().any(|window| overlaps(shape, &reach, window))
        && !windows
            .iter()
            .any(|window| is_inside(shape, &reach, window))
}

/// All levels, from the root to the deepest.
pub fn levels(alloc: Global, shape: &Shape, windows: &[Window]) -> Result<Vec<Level>, NoMemory> {
    let mut levels = Vec::new(alloc);
    for level in 0..=shape.depth {
        let runs = runs(alloc, shape, windows, level)?;
        let mut partial = 0u64;
        for path in 0..nodes(shape, level) {
            partial = partial.saturating_add(u64::from(is_partial(shape, windows, level, path)));
        }
        levels.push(Level {
            level,
            runs,
            partial,
        })?;
    }
    Ok(levels)
}

// A level qualifies by at most so many runs, and at most four times as many partial nodes.
fn qualifies(level: &Level, target: u32) -> bool {
    level.runs.len() <= target as usize && level.partial <= 4 * u64::from(target)
}

/// The stop level: the last such that every level up to it qualifies.
pub fn stop(levels: &[Level], target: u32) -> Option<&Level> {
    levels
        .iter()
        .take_while(|level| qualifies(level, target))
        .last()
}
