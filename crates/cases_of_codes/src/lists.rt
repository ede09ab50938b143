// Lists of windows to be split: all short ones of a small space, and some that are drawn by a fixed
// rule, so that each run has the same.
use crate::enumerated::{Shape, cell, nodes};
use gm_base::NoMemory;
use gm_trees::{Node3, Window};
use std::alloc::Global;

/// The first so many of these windows.
#[derive(Clone, Copy, Debug)]
pub struct List {
    pub windows: [Window; 3],
    pub count: usize,
}

// From one cell of the deepest level to another, by their paths.
fn between(shape: &Shape, low: u64, high: u64) -> Window {
    Window {
        low: cell(shape, shape.depth, low),
        high: cell(shape, shape.depth, high),
    }
}

// Whether its ends are in order.
fn has_cells(window: &Window) -> bool {
    window.low.x <= window.high.x && window.low.y <= window.high.y && window.low.t <= window.high.t
}

// All windows of a space.
fn all_windows(alloc: Global, shape: &Shape) -> Result<Vec<Window>, NoMemory> {
    let cells = nodes(shape, shape.depth);
    let mut windows = Vec::new(alloc);
    for low in 0..cells {
        for high in 0..cells {
            let window = between(shape, low, high);
            if has_cells(&window) {
                windows.push(window)?;
            }
        }
    }
    Ok(windows)
}

// Drawn numbers, by a multiplier of Knuth's. The lowest bits are left out, since they soon repeat.
#[derive(Drop)]
struct Draws(u64);

impl Draws {
    fn cell(&mut self, shape: &Shape) -> Node3 {
        self.0 = self
            .0
            .wrapping_mul(6_364_136_223_846_793_005)
            .wrapping_add(1_442_695_040_888_963_407);
        cell(shape, shape.depth, self.0 >> 40)
    }

    fn window(&mut self, shape: &Shape) -> Window {
        let one = self.cell(shape);
        let two = self.cell(shape);
        Window {
            low: Node3 {
                x: one.x.min(two.x),
                y: one.y.min(two.y),
                t: one.t.min(two.t),
            },
            high: Node3 {
                x: one.x.max(two.x),
                y: one.y.max(two.y),
                t: one.t.max(two.t),
            },
        }
    }
}

// The cell of the window that is nearest to this one.
fn nearest(window: &Window, cell: Node3) -> Node3 {
    Node3 {
        x: cell.x.max(window.low.x).min(window.high.x),
        y: cell.y.max(window.low.y).min(window.high.y),
        t: cell.t.max(window.low.t).min(window.high.t),
    }
}

// As wide a window that touches this one along x. It may be past the end of the space.
fn beside(window: &Window) -> Window {
    let wide = window.high.x.wrapping_sub(window.low.x).wrapping_add(1);
    let mut beside = *window;
    beside.low.x = window.low.x.wrapping_add(wide);
    beside.high.x = window.high.x.wrapping_add(wide);
    beside
}

// How many lists of one window, of two and of three are drawn.
const DRAWN: u32 = 30;

// Adds drawn lists. By turns the second window is drawn as the first is, lies in it, and touches
// it.
fn draw(shape: &Shape, lists: &mut Vec<List>) -> Result<(), NoMemory> {
    let mut draws = Draws(1);
    for number in 0..DRAWN {
        let first = draws.window(shape);
        let other = draws.window(shape);
        let inside = Window {
            low: nearest(&first, other.low),
            high: nearest(&first, other.high),
        };
        let second = match number % 3 {
            0 => other,
            1 => inside,
            _ => beside(&first),
        };
        let third = draws.window(shape);
        let all = [third, second, first];
        for (windows, count) in [([first; 3], 1), ([first, second, third], 2), (all, 3)] {
            lists.push(List { windows, count })?;
        }
    }
    Ok(())
}

/// No window, the whole space, all windows and all pairs of them where they are few, and drawn
/// lists.
pub fn lists_for(alloc: Global, shape: &Shape) -> Result<Vec<List>, NoMemory> {
    let whole = between(shape, 0, nodes(shape, shape.depth).saturating_sub(1));
    let mut lists = Vec::new(alloc);
    for count in 0..2 {
        lists.push(List {
            windows: [whole; 3],
            count,
        })?;
    }
    let bits = shape.dimensions.saturating_mul(shape.depth);
    if bits <= 6 {
        let windows = all_windows(alloc, shape)?;
        for one in &windows {
            lists.push(List {
                windows: [*one; 3],
                count: 1,
            })?;
            if bits <= 4 {
                add_pairs(one, &windows, &mut lists)?;
            }
        }
    }
    draw(shape, &mut lists)?;
    Ok(lists)
}

// Adds the lists of this window and each of the others.
fn add_pairs(one: &Window, windows: &[Window], lists: &mut Vec<List>) -> Result<(), NoMemory> {
    for two in windows {
        lists.push(List {
            windows: [*one, *two, *one],
            count: 2,
        })?;
    }
    Ok(())
}
