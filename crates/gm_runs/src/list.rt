// Lists of runs.
ghost use Rattle.std.specs.Prelude.{◌≡◌, ◌≤◌, ◌++◌, ◌∷◌, ◌+◌, ℕ, List};
ghost use Rattle.std.specs.Prelude.{IfOk, OnOk, OnErr, Decides, ltb};
ghost use Rattle.gm_runs.specs.Runs.{AreRuns, HasNumber};
ghost use Rattle.gm_runs.specs.List.{inserted, pending};

use gm_base::NoMemory;
use std::alloc::Global;

/// Adds the numbers from low to high. Where they begin at or behind the last run, nothing is
/// copied.
pub(crate) fn insert(
    alloc: Global,
    runs: &mut Vec<(u64, u64)>,
    low: u64,
    high: u64,
) -> Result<(), NoMemory>
    requires runs { AreRuns runs.old.items }
    requires rise { low ≤ high }
    ensures ok { OnOk result (runs.new.items ≡ inserted low high runs.old.items) }
    ensures err { OnErr result (runs.new.items ≡ runs.old.items) }
{
    let count = runs.len();
    if count == 0 {
        runs.push((low, high))?;
        return Ok(());
    }
    let last = runs[count - 1];
    if is_apart(last.1, low) {
        runs.push((low, high))?;
        return Ok(());
    }
    if last.0 <= low {
        runs[count - 1] = (last.0, last.1.max(high));
        return Ok(());
    }
    *runs = joined(alloc, runs, low, high)?;
    Ok(())
}

// The list with the numbers from low to high, joined with the runs that they touch.
fn joined(
    alloc: Global,
    runs: &[(u64, u64)],
    low: u64,
    high: u64,
) -> Result<Vec<(u64, u64)>, NoMemory>
    ensures { IfOk result (λ all. all.items ≡ inserted low high runs.now) }
{
    let mut all = Vec::with_capacity(alloc, runs.len() + 1)?;
    let mut kept = Some((low, high));
    for run in runs {
        join_one(&mut all, &mut kept, *run)?;
    }
    if let Some(last) = kept {
        all.push(last)?;
    }
    Ok(all)
}

// One run more: before the numbers that are still kept back, behind them, or joined with them.
fn join_one(
    all: &mut Vec<(u64, u64)>,
    kept: &mut Option<(u64, u64)>,
    run: (u64, u64),
) -> Result<(), NoMemory>
    ensures { OnOk result ((rest : List (ℕ × ℕ))
        → all.new.items ++ pending kept.new rest ≡ all.old.items ++ pending kept.old (run ∷ rest)) }
{
    match *kept {
        None => all.push(run)?,
        Some((low, high)) => {
            if is_apart(high, run.0) {
                all.push((low, high))?;
                all.push(run)?;
                *kept = None;
                return Ok(());
            }
            if is_apart(run.1, low) {
                all.push(run)?;
                return Ok(());
            }
            *kept = Some((low.min(run.0), high.max(run.1)));
        }
    }
    Ok(())
}

// Whether a number is left out between these two.
fn is_apart(before: u64, after: u64) -> bool
    ensures { result ≡ ltb (before + 1) after }
{
    before < after && after - before > 1
}

/// Whether one of the runs holds this number, by bisection.
pub(crate) fn has_number(runs: &[(u64, u64)], code: u64) -> bool
    requires { AreRuns runs.now }
    ensures { Decides result (HasNumber runs.now code) }
{
    let at = runs.partition_point(|run| run.1 < code);
    at < runs.len() && runs[at].0 <= code
}
