// A set of numbers, seen as its maximal runs.
ghost use Rattle.std.specs.Prelude.{◌≡◌, ◌≤◌, ◌<◌, [], length, OnOk};
ghost use Rattle.std.specs.Prelude.{OnErr, Decides, slice_index_or};
ghost use Rattle.gm_runs.specs.Runs.{AreRuns, HasNumber, AddsBetween};

use crate::list;
use gm_base::NoMemory;
use std::alloc::Global;
use std::marker::Model;

/// A set of numbers, seen as its maximal runs: rising closed intervals that do not touch.
#[derive(Debug, Drop)]
pub struct Runs {
    items: Vec<(u64, u64)>,
}

impl Model for Runs {
    ghost use Rattle.std.specs.Prelude.{ℕ, List};
    ghost use Rattle.gm_runs.specs.Runs.{AreRuns};

    ghost Value = { List (ℕ × ℕ) };

    ghost view = { λ r. r.items.items };

    ghost invariant = { λ r. AreRuns r.items.items };
}

impl Runs {
    /// The set without numbers. It takes no memory.
    pub fn new(alloc: Global) -> Runs
        ensures { result ≡ [] }
    {
        Runs {
            items: Vec::new(alloc),
        }
    }

    /// Adds the numbers from low to high. It is one step where they begin at or behind the last
    /// run, and else one pass over the runs.
    pub fn insert(&mut self, alloc: Global, low: u64, high: u64) -> Result<(), NoMemory>
        requires { low ≤ high }
        ensures ok { OnOk result (AddsBetween low high self.old self.new) }
        ensures err { OnErr result (self.new ≡ self.old) }
        ensures runs { AreRuns self.new }
    {
        list::insert(alloc, &mut self.items, low, high)?;
        Ok(())
    }

    /// How many runs there are.
    pub fn count(&self) -> usize
        ensures count { result ≡ length self.now }
        ensures runs { AreRuns self.now }
    {
        self.items.len()
    }

    /// The first and the last number of a run, counted from 0.
    pub fn at(&self, i: usize) -> (u64, u64)
        requires { i < length self.now }
        ensures { result ≡ slice_index_or self.now i (0, 0) }
    {
        self.items[i]
    }

    /// Whether the number is in the set, by bisection.
    pub fn contains(&self, code: u64) -> bool
        ensures { Decides result (HasNumber self.now code) }
    {
        list::has_number(&self.items, code)
    }
}
