// What holds of lists of runs, whatever made them.
ghost use Rattle.std.specs.Prelude.{◌≡◌, ◌≤◌, ◌<◌, ◌↔◌, ◌+◌, ℕ, List, Bool};
ghost use Rattle.std.specs.Prelude.{true, length, slice_index_or};
ghost use Rattle.gm_runs.specs.Runs.{AreRuns, HasNumber, AreMaximalRuns, maximal_runs};

/// Two lists of runs that hold the same numbers are equal: a set has one list of maximal runs.
pub fn same_numbers_same_runs()
    ensures { (one two : List (ℕ × ℕ)) → AreRuns one → AreRuns two
        → ((c : ℕ) → HasNumber one c ↔ HasNumber two c) → one ≡ two }
{}

/// The maximal runs of the numbers below n that pass a test are a list of maximal runs of just
/// these.
pub fn tests_have_maximal_runs()
    ensures { (test : ℕ → Bool) (n : ℕ)
        → AreMaximalRuns (maximal_runs test n) (λ c. (c < n) × (test c ≡ true)) }
{}

/// A run ends at or behind its low end, and the next begins more than one past its high end: runs
/// rise and share no number.
pub fn runs_rise()
    ensures rise { (runs : List (ℕ × ℕ)) (i : ℕ) → AreRuns runs → i < length runs
        → (slice_index_or runs i (0, 0)).0 ≤ (slice_index_or runs i (0, 0)).1 }
    ensures apart { (runs : List (ℕ × ℕ)) (i : ℕ) → AreRuns runs → i + 1 < length runs
        → (slice_index_or runs i (0, 0)).1 + 1 < (slice_index_or runs (i + 1) (0, 0)).0 }
{}

/// A set has the numbers between the ends of its runs.
pub fn numbers_stand_in_runs()
    ensures { (runs : List (ℕ × ℕ)) (c : ℕ) → HasNumber runs c
        ↔ ((i : ℕ) × (i < length runs)
        × ((slice_index_or runs i (0, 0)).0 ≤ c) × (c ≤ (slice_index_or runs i (0, 0)).1)) }
{}
