// The cell of a point along one dimension.
ghost use Rattle.std.specs.Prelude.{◌≡◌, ◌≤◌, ◌^◌, ℕ};
ghost use Rattle.gm_curve.specs.Scale.{normal_of};

/// The cell, of 2^bits cells of one length along a span, in which the point u of the span lies. Its
/// end is in the last cell.
pub fn normal(u: u64, span: u64, bits: u32) -> u32
    requires within { u ≤ span }
    requires some { 1 ≤ span }
    requires most { span ≤ 2 ^ 32 }
    requires few { 1 ≤ bits }
    requires fit { bits ≤ 31 }
    ensures { result ≡ normal_of u span bits }
{
    let cells = 1u64 << bits;
    let cell = u * cells / span;
    cell.min(cells - 1) as u32
}

/// A point that is not before another is in no earlier cell.
pub fn normal_rises()
    ensures { (u v span bits : ℕ) → u ≤ v → normal_of u span bits ≤ normal_of v span bits }
{}
