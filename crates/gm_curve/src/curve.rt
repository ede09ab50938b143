// The Z code.
ghost use Rattle.std.specs.Prelude.{◌≡◌, ◌≤◌, ◌<◌, ◌*◌, ◌^◌, ◌⊎◌, ℕ, List, length, All};
ghost use Rattle.gm_curve.specs.Curve.{IsZCode, IsAtMost, z_code};

use crate::spreading::{gather, spread_by_three, spread_by_two};

/// The Z curve of D dimensions with B bits each, after Morton (1966).
#[derive(Clone, Copy, Debug, PartialEq, Eq)]
pub struct Curve<const D: usize, const B: u32>;

impl<const D: usize, const B: u32> Curve<D, B> {
    /// The code of these coordinates: bit j of coordinate d is its bit D*j + d.
    pub fn encode(&self, at: &[u32]) -> u64
        requires dimensions { (D ≡ 2) ⊎ (D ≡ 3) }
        requires fits { D * B ≤ 63 }
        requires length { length at.now ≡ D }
        requires below { All (λ x. x < 2 ^ B) at.now }
        ensures code { result ≡ z_code D B at.now }
        ensures bits { IsZCode D B at.now result }
    {
        match at {
            [x, y] => spread_by_two(*x) | spread_by_two(*y) << 1,
            [x, y, t] => spread_by_three(*x) | spread_by_three(*y) << 1 | spread_by_three(*t) << 2,
            _ => unreachable!(),
        }
    }

    /// Writes the coordinates of this code.
    pub fn decode(&self, code: u64, at: &mut [u32])
        requires dimensions { (D ≡ 2) ⊎ (D ≡ 3) }
        requires fits { D * B ≤ 63 }
        requires length { length at.old ≡ D }
        requires below { code < 2 ^ (D * B) }
        ensures length { length at.new ≡ D }
        ensures below { All (λ x. x < 2 ^ B) at.new }
        ensures code { z_code D B at.new ≡ code }
        ensures bits { IsZCode D B at.new code }
    {
        for (d, x) in at.iter_mut().enumerate() {
            *x = gather(D, code >> d);
        }
    }
}

/// The Z code has the bits of the coordinates at their places, and no other.
pub fn code_by_bits<const D: usize, const B: u32>()
    requires { 0 < D }
    ensures { (at : List ℕ) → length at ≡ D → IsZCode D B at (z_code D B at) }
{}

/// Numbers that have the bits of the same coordinates at their places, and no other, are one.
pub fn codes_are_one<const D: usize, const B: u32>()
    requires { 0 < D }
    ensures { (at : List ℕ) (c e : ℕ) → IsZCode D B at c → IsZCode D B at e → c ≡ e }
{}

/// Coordinates below 2^B that have one code are one.
pub fn coordinates_are_one<const D: usize, const B: u32>()
    requires { 0 < D }
    ensures { (a b : List ℕ) → length a ≡ D → length b ≡ D
        → All (λ x. x < 2 ^ B) a → All (λ x. x < 2 ^ B) b
        → z_code D B a ≡ z_code D B b → a ≡ b }
{}

/// A box's codes lie between those of its corners: where no coordinate falls, the code does not.
pub fn codes_rise<const D: usize, const B: u32>()
    requires { 0 < D }
    ensures { (a b : List ℕ) → length a ≡ D → length b ≡ D
        → All (λ x. x < 2 ^ B) a → All (λ x. x < 2 ^ B) b → IsAtMost a b
        → z_code D B a ≤ z_code D B b }
{}
