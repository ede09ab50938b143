//! Windows of a space as few runs of codes, for any tree of cells.
//!
//! A level of the tree has a level set: all codes of the nodes of that level whose reach overlaps a
//! window, and the own codes of the shallower nodes whose reach does. The decomposition goes from
//! the root down, a level at a time, and stops before the first level that takes more than `target`
//! runs or has more than `4 * target` nodes that overlap a window and are inside none. What it
//! answers is exactly the maximal runs of the level set there.
#![tactic(auto)]

mod answer;
mod front;
mod laws;
mod levels;
mod opening;
mod pieces;
mod windows;

pub use answer::Split;
pub use laws::{
    codes_have_one_stem, explained_runs_cover, explained_runs_have_codes, explained_runs_rise,
    level_runs_are_level_sets, meets_where_one_overlaps, no_window_no_run, objects_are_covered,
    points_are_covered, runs_are_tight, stop_level_is_the_stop,
};
pub use levels::{split, split_in_plane, split_in_space};
