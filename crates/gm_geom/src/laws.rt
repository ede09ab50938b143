// Laws of the definitions, for the crates above.
ghost use Rattle.std.specs.Prelude.{◌≡◌, ◌↔◌, List, ℤ, ℕ, true, Some, None, Ok, Err, FitsSigned};
ghost use Rattle.std.specs.Int.{w32};
ghost use Rattle.std.specs.List.{list_all};
ghost use Rattle.gm_geom.specs.declared.geometry.Geometry.{Geometry};
ghost use Rattle.gm_geom.specs.declared.number.Number.{Number};
ghost use Rattle.gm_geom.specs.declared.number.NumberFault.TheVariants.{Form, Big};
ghost use Rattle.gm_geom.specs.declared.point.Box2.{Box2};
ghost use Rattle.gm_geom.specs.declared.point.Point.{Point};
ghost use Rattle.gm_geom.specs.Extent.{IsLeastBox, extent_of};
ghost use Rattle.gm_geom.specs.Geometry.{points_of};
ghost use Rattle.gm_geom.specs.Number.{fixed_of, fixed_text, is_number_byte, number_of};
ghost use Rattle.gm_geom.specs.Number.{rounded, SpellsNumber, SpellsFixed};
ghost use Rattle.gm_geom.specs.Validity.{fault_of};

/// A text spells a number exactly where the function gives it, and so at most one. Its fixed
/// number is the function's, and the two faults come where it spells none, or one that is too big.
pub fn numbers_are_spelled()
    ensures number { (text : List ℕ) (n : Number)
        → SpellsNumber text n ↔ (number_of text ≡ Some n) }
    ensures one { (text : List ℕ) (n m : Number)
        → SpellsNumber text n → SpellsNumber text m → n ≡ m }
    ensures fixed { (text : List ℕ) (z : ℤ) → SpellsFixed text z ↔ (fixed_of text ≡ Ok z) }
    ensures form { (text : List ℕ)
        → ((n : Number) → SpellsNumber text n → ⊥) ↔ (fixed_of text ≡ Err Form) }
    ensures big { (text : List ℕ)
        → ((n : Number) × SpellsNumber text n × (rounded n ≡ Err Big)) ↔ (fixed_of text ≡ Err Big) }
{}

/// Reading the spelling of a fixed number gives the number again.
pub fn reads_back()
    ensures { (z : ℤ) → FitsSigned w32 z → fixed_of (fixed_text z) ≡ Ok z }
{}

/// The spelling of a fixed number has only bytes of numbers.
pub fn has_number_bytes()
    ensures { (z : ℤ) → FitsSigned w32 z → list_all is_number_byte (fixed_text z) ≡ true }
{}

/// A geometry that is kept has an extent, and the extent of points is their least box.
pub fn extents_are_least()
    ensures there { (geometry : Geometry) → fault_of geometry ≡ None
        → (extent : Box2) × (extent_of (points_of geometry) ≡ Some extent) }
    ensures least { (points : List Point) (extent : Box2) → extent_of points ≡ Some extent
        → IsLeastBox extent points }
{}
