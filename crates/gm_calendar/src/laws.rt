// Laws of the definitions, for the crates above.
ghost use Rattle.std.specs.Prelude.{◌≡◌, ◌↔◌, ◌≤◌, ◌==◌, length, List, ℤ, ℕ, true, false, Some};
ghost use Rattle.std.specs.List.{list_all, list_any};
ghost use Rattle.gm_calendar.specs.Instant.{IsInstant, is_instant};
ghost use Rattle.gm_calendar.specs.Parts.{SpellsInstant};
ghost use Rattle.gm_calendar.specs.Spelling.{instant_of, is_instant_byte};

/// The test for the years 0000 to 9999 says what it is to say.
pub fn instants_are_tested()
    ensures { (ms : ℤ) → IsInstant ms ↔ (is_instant ms ≡ true) }
{}

/// A text spells an instant exactly where the function gives it, and so at most one. It has ten
/// bytes at least, all of them bytes of instants: no 0x0A, no comma and no quote.
pub fn instants_are_spelled()
    ensures instant { (text : List ℕ) (at : ℤ)
        → SpellsInstant text at ↔ (instant_of text ≡ Some at) }
    ensures one { (text : List ℕ) (a b : ℤ)
        → SpellsInstant text a → SpellsInstant text b → a ≡ b }
    ensures bytes { (text : List ℕ) (at : ℤ)
        → SpellsInstant text at → list_all is_instant_byte text ≡ true }
    ensures lacks { (text : List ℕ) (at : ℤ) (byte : ℕ)
        → SpellsInstant text at → is_instant_byte byte ≡ false
        → list_any (λ b. b == byte) text ≡ false }
    ensures long { (text : List ℕ) (at : ℤ) → SpellsInstant text at → 10 ≤ length text }
{}
