// What holds of every feature type.
ghost use Rattle.std.specs.Prelude.{◌≡◌, ℕ, List, Some};
ghost use Rattle.gm_types.specs.FeatureType.{IsType, IsReadType, HoldsTogether};
ghost use Rattle.gm_types.specs.Reader.{specification_of};
ghost use Rattle.gm_types.specs.Specification.{Specification};
ghost use Rattle.gm_types.specs.Spelling.{Spells, canonical_text};

use crate::FeatureType;

/// The laws of a type, for proofs: it breaks no rule of specifications, its default geometry and
/// date are attributes of such kinds, and what an enabled index rests on is there. It does nothing.
pub fn types_hold_together(of: &FeatureType)
    ensures typed { IsType of.now }
    ensures together { HoldsTogether of.now }
    ensures law { (t : Specification) → IsType t → HoldsTogether t }
{
    // For the proof alone: it is a type that breaks no rule.
    let _attributes = of.attributes();
}

/// The law of what is read, for proofs: it has the name and the number that were given, and breaks
/// no rule. It does nothing.
pub fn read_types_are_valid()
    ensures { (name : List ℕ) (number : ℕ) (text : List ℕ) (t : Specification)
        → specification_of name number text ≡ Some t → IsReadType name number t }
{}

/// The laws of canonical texts, for proofs: such a text spells its type and is read as it, the
/// canonical text of what is read is the same, and types of one name and number with one canonical
/// text are equal. It does nothing.
pub fn canonical_texts_read_back()
    ensures spells { (t : Specification) → IsType t → Spells (canonical_text t) t }
    ensures read { (t : Specification) → IsType t
        → specification_of t.name t.number (canonical_text t) ≡ Some t }
    ensures once { (t u : Specification) → IsType t
        → specification_of t.name t.number (canonical_text t) ≡ Some u
        → canonical_text u ≡ canonical_text t }
    ensures one { (t u : Specification) → IsType t → IsType u → t.name ≡ u.name
        → t.number ≡ u.number
        → canonical_text t ≡ canonical_text u → t ≡ u }
{}

/// The law of spelling, for proofs: a text that spells a specification is read as it, so it spells
/// at most one of a name and a number. It does nothing.
pub fn spelled_types_are_read()
    ensures read { (text : List ℕ) (t : Specification) → Spells text t
        → specification_of t.name t.number text ≡ Some t }
    ensures one { (text : List ℕ) (t u : Specification) → Spells text t → Spells text u
        → t.name ≡ u.name
        → t.number ≡ u.number → t ≡ u }
{}

/// The law of reading, for proofs: what a text is read as has the name and the number that were
/// given, and the text spells it. It does nothing.
pub fn read_types_are_spelled()
    ensures spells { (name : List ℕ) (number : ℕ) (text : List ℕ) (t : Specification)
        → specification_of name number text ≡ Some t → Spells text t }
    ensures named { (name : List ℕ) (number : ℕ) (text : List ℕ) (t : Specification)
        → specification_of name number text ≡ Some t → (t.name ≡ name) × (t.number ≡ number) }
{}
