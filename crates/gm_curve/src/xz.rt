// The XZ code.
ghost use Rattle.std.specs.Prelude.{◌≡◌, ◌≤◌, ◌<◌, ◌+◌, ◌-◌, ◌*◌, ◌^◌, ◌⊎◌, ◌↔◌, ℕ, List};
ghost use Rattle.std.specs.Prelude.{Some, length, All, IsTrue, slice_get, slice_index};
ghost use Rattle.std.specs.Int.{bit_at};
ghost use Rattle.gm_curve.specs.Curve.{IsAtMost, bits_at};
ghost use Rattle.gm_curve.specs.Listing.{IsSequence, listing, place_in, sequence_count};
ghost use Rattle.gm_curve.specs.Xz.{IsCovered, IsLevel, level_of, sequence_of, xz_code};

/// The XZ curve of D dimensions with sequences of at most G numbers, after Böhm, Klump and
/// Kriegel (1999).
#[derive(Clone, Copy, Debug, PartialEq, Eq)]
pub struct Xz<const D: usize, const G: u32>;

impl<const D: usize, const G: u32> Xz<D, G> {
    /// The level of an object that goes from the cell `low` to the cell `high`: the greatest at
    /// which, in each dimension, it lies in one cell or in two that touch.
    pub fn level(&self, low: &[u32], high: &[u32]) -> u32
        requires dimensions { (D ≡ 2) ⊎ (D ≡ 3) }
        requires least { 1 ≤ G }
        requires most { G ≤ 16 }
        requires low_length { length low.now ≡ D }
        requires high_length { length high.now ≡ D }
        requires ordered { IsAtMost low.now high.now }
        requires below { All (λ x. x < 2 ^ G) high.now }
        ensures level { result ≡ level_of G low.now high.now }
        ensures greatest { IsLevel G low.now high.now result }
        ensures some { 1 ≤ result }
    {
        // Cells of 2^shift are longer than the longest side; those of half the length may do too.
        let side = longest_side(low, high);
        let shift = 32 - side.leading_zeros();
        let finer = shift.saturating_sub(1);
        if is_covered(low, high, finer) {
            G - finer
        } else {
            G - shift
        }
    }

    /// The code of an object that goes from the cell `low` to the cell `high`: the place in the
    /// listing of the sequence that leads to the cell of `low` at the object's level.
    pub fn code(&self, low: &[u32], high: &[u32]) -> u64
        requires dimensions { (D ≡ 2) ⊎ (D ≡ 3) }
        requires least { 1 ≤ G }
        requires most { G ≤ 16 }
        requires low_length { length low.now ≡ D }
        requires high_length { length high.now ≡ D }
        requires ordered { IsAtMost low.now high.now }
        requires below { All (λ x. x < 2 ^ G) high.now }
        ensures code { result ≡ xz_code D G low.now high.now }
        ensures listed { slice_get (listing D G) result
            ≡ Some (sequence_of G (level_of G low.now high.now) low.now) }
    {
        let level = self.level(low, high);
        // Each number passes the shorter sequence, and all that begin with a lower number here.
        let mut code = 0;
        for i in 0..level {
            code += bits_of(low, G - 1 - i) * sequences(D, G - i) + 1;
        }
        code
    }
}

// The longest side of a box, less one.
fn longest_side(low: &[u32], high: &[u32]) -> u32
    requires length { length high.now ≡ length low.now }
    requires ordered { IsAtMost low.now high.now }
    ensures most { (d : ℕ) → slice_index high.now d ≤ slice_index low.now d + result }
    ensures least { (n : ℕ)
        → ((d : ℕ) → slice_index high.now d ≤ slice_index low.now d + n) → result ≤ n }
{
    let mut side = 0u32;
    for (d, start) in low.iter().enumerate() {
        side = side.max(high[d] - *start);
    }
    side
}

// Whether a box lies, in each dimension, in one cell of the side 2^shift or in two that touch.
fn is_covered(low: &[u32], high: &[u32], shift: u32) -> bool
    requires length { length high.now ≡ length low.now }
    requires shift { shift < 32 }
    requires below { All (λ x. x < 2 ^ 31) low.now }
    ensures { IsTrue result ↔ IsCovered (2 ^ shift) low.now high.now }
{
    for (d, start) in low.iter().enumerate() {
        if high[d] >> shift > (*start >> shift) + 1 {
            return false;
        }
    }
    true
}

// The bits at a place of each coordinate, that of the first the lowest.
fn bits_of(at: &[u32], bit_place: u32) -> u64
    requires few { length at.now ≤ 3 }
    requires place { bit_place < 32 }
    ensures bits { result ≡ bits_at bit_place at.now }
    ensures below { result < 2 ^ length at.now }
{
    match at {
        [] => 0,
        [first, rest @ ..] => u64::from((*first >> bit_place) & 1) + 2 * bits_of(rest, bit_place),
    }
}

// How many sequences of fewer numbers than these there are.
fn sequences(dimensions: usize, sequence_places: u32) -> u64
    requires some { 1 ≤ dimensions }
    requires few { dimensions ≤ 3 }
    requires least { 1 ≤ sequence_places }
    requires most { sequence_places ≤ 16 }
    ensures { result ≡ sequence_count dimensions (sequence_places - 1) }
{
    let bits = dimensions as u32;
    ((1u64 << bits * sequence_places) - 1) / ((1u64 << bits) - 1)
}

/// The sequence of a cell has, at its place i from 0, the bits G-1-i of the cell's indexes, and its
/// first l numbers are a sequence of the listing.
pub fn sequences_by_bits<const D: usize, const G: u32>()
    ensures count { (l : ℕ) (low : List ℕ) → l ≤ G → length (sequence_of G l low) ≡ l }
    ensures bits { (l i d : ℕ) (low : List ℕ) → i < l → l ≤ G → d < length low
        → bit_at (slice_index (sequence_of G l low) i) d ≡ bit_at (slice_index low d) (G - 1 - i) }
    ensures sequence { (l : ℕ) (low : List ℕ)
        → length low ≡ D → IsSequence D G (sequence_of G l low) }
{}

/// The listing for g has as many members as `sequence_count` says, and each sequence of it stands
/// at its place in it.
pub fn sequences_are_listed<const D: usize>()
    ensures count { (g : ℕ) → length (listing D g) ≡ sequence_count D g }
    ensures listed { (g : ℕ) (path : List ℕ) → IsSequence D g path
        → slice_get (listing D g) (place_in (listing D g) path) ≡ Some path }
{}
