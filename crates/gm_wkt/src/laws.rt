// Laws of the definitions, for the crates above.
ghost use Rattle.std.specs.Prelude.{◌≡◌, ◌↔◌, ◌<◌, ◌==◌, List, ℕ, length};
ghost use Rattle.std.specs.Prelude.{true, false, None, Some, Ok};
ghost use Rattle.std.specs.List.{list_all, list_any};
ghost use Rattle.gm_geom.specs.declared.geometry.Geometry.{Geometry};
ghost use Rattle.gm_geom.specs.declared.geometry.Geometry.TheVariants as geo;
ghost use Rattle.gm_geom.specs.declared.point.Point.{Point};
ghost use Rattle.gm_geom.specs.Validity.{fault_of};
ghost use Rattle.gm_wkt.specs.Answer.{answer_of};
ghost use Rattle.gm_wkt.specs.Grammar.{SpellsText};
ghost use Rattle.gm_base.specs.Ascii.{line_feed};
ghost use Rattle.gm_wkt.specs.Printer.{printed, is_point_byte};
ghost use Rattle.gm_wkt.specs.Value.{geometry_of};

use gm_geom::{has_number_bytes, reads_back};

/// A text spells at most one geometry.
pub fn one_geometry()
    ensures { (text : List ℕ) (g h : Geometry) → SpellsText text g → SpellsText text h → g ≡ h }
{}

/// The geometry that a text spells is that of the function.
pub fn geometry_is_spelled()
    ensures { (text : List ℕ) (g : Geometry) → SpellsText text g ↔ (geometry_of text ≡ Some g) }
{}

/// What is printed of a geometry that is kept spells it, and is read as it again.
pub fn printed_is_spelled()
    ensures spells { (g : Geometry) → fault_of g ≡ None → SpellsText (printed g) g }
    ensures reads_back { (g : Geometry) → fault_of g ≡ None → answer_of (printed g) ≡ Ok g }
{
    reads_back();
    has_number_bytes();
}

/// A text that spells a geometry stands on a line of its own: it is not empty, and has no 0x0A.
pub fn spelled_on_a_line()
    ensures some { (text : List ℕ) (g : Geometry) → SpellsText text g → 0 < length text }
    ensures line { (text : List ℕ) (g : Geometry)
        → SpellsText text g → list_any (λ byte. byte == line_feed) text ≡ false }
{}

/// What is printed of a point that is kept has no byte but those of printed points: no comma and no
/// quote.
pub fn points_are_plain()
    ensures { (p : Point) → fault_of (geo.Point p) ≡ None
        → list_all is_point_byte (printed (geo.Point p)) ≡ true }
{
    has_number_bytes();
}
