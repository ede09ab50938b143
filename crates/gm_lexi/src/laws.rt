// Laws of the lexicoded forms. Each is the contract of a function that does nothing.
ghost use Rattle.std.specs.Prelude.{◌≡◌, ◌<◌, ◌^◌, ◌+ℤ◌, ◌++◌, Bool, ℕ, ℤ, pos, List, FitsSigned};
ghost use Rattle.std.specs.Int.{w32, w64};
ghost use Rattle.std.specs.Ordering.{nat_cmp, int_cmp, bool_cmp, ordering_then};
ghost use Rattle.std.specs.Cmp.Lexicographic.{slice_cmp};
ghost use Rattle.byteorder.specs.Endian.{big_bytes};
ghost use Rattle.gm_calendar.specs.Instant.{IsInstant};
ghost use Rattle.gm_lexi.specs.Lexicode.{int_bytes, long_bytes, date_bytes};
ghost use Rattle.gm_lexi.specs.Lexicode.{bool_bytes, text_bytes, HasNoZero};

/// The order of the forms is that of the values, and of equal values what follows the forms
/// decides. Texts are in the order of their bytes.
pub fn values_in_order()
    ensures ints { (a b : ℤ) (s t : List ℕ) → FitsSigned w32 a → FitsSigned w32 b
        → slice_cmp nat_cmp (int_bytes a ++ s) (int_bytes b ++ t)
        ≡ ordering_then (int_cmp a b) (slice_cmp nat_cmp s t) }
    ensures longs { (a b : ℤ) (s t : List ℕ) → FitsSigned w64 a → FitsSigned w64 b
        → slice_cmp nat_cmp (long_bytes a ++ s) (long_bytes b ++ t)
        ≡ ordering_then (int_cmp a b) (slice_cmp nat_cmp s t) }
    ensures dates { (a b : ℤ) (s t : List ℕ) → IsInstant a → IsInstant b
        → slice_cmp nat_cmp (date_bytes a ++ s) (date_bytes b ++ t)
        ≡ ordering_then (int_cmp a b) (slice_cmp nat_cmp s t) }
    ensures truths { (a b : Bool) (s t : List ℕ)
        → slice_cmp nat_cmp (bool_bytes a ++ s) (bool_bytes b ++ t)
        ≡ ordering_then (bool_cmp a b) (slice_cmp nat_cmp s t) }
    ensures texts { (a b s t : List ℕ) → HasNoZero a → HasNoZero b
        → slice_cmp nat_cmp (text_bytes a ++ s) (text_bytes b ++ t)
        ≡ ordering_then (slice_cmp nat_cmp a b) (slice_cmp nat_cmp s t) }
{}

/// No form is a front of another of its kind: where two forms are followed by something and the
/// whole is one, the values are one, and so is what follows.
pub fn no_value_is_a_front()
    ensures ints { (a b : ℤ) (s t : List ℕ) → FitsSigned w32 a → FitsSigned w32 b
        → int_bytes a ++ s ≡ int_bytes b ++ t → (a ≡ b) × (s ≡ t) }
    ensures longs { (a b : ℤ) (s t : List ℕ) → FitsSigned w64 a → FitsSigned w64 b
        → long_bytes a ++ s ≡ long_bytes b ++ t → (a ≡ b) × (s ≡ t) }
    ensures dates { (a b : ℤ) (s t : List ℕ) → IsInstant a → IsInstant b
        → date_bytes a ++ s ≡ date_bytes b ++ t → (a ≡ b) × (s ≡ t) }
    ensures truths { (a b : Bool) (s t : List ℕ)
        → bool_bytes a ++ s ≡ bool_bytes b ++ t → (a ≡ b) × (s ≡ t) }
    ensures texts { (a b s t : List ℕ) → HasNoZero a → HasNoZero b
        → text_bytes a ++ s ≡ text_bytes b ++ t → (a ≡ b) × (s ≡ t) }
{}

/// A signed number with its first bit flipped is its place among those of its width, from the least
/// on.
pub fn numbers_as_places()
    ensures ints { (value : ℤ) (place : ℕ) → FitsSigned w32 value
        → pos place ≡ value +ℤ pos (2 ^ 31) → int_bytes value ≡ big_bytes 4 place }
    ensures longs { (value : ℤ) (place : ℕ) → FitsSigned w64 value
        → pos place ≡ value +ℤ pos (2 ^ 63) → long_bytes value ≡ big_bytes 8 place }
{}

/// Numbers in so many bytes, the highest first, are in the order of these, none of them is a front
/// of another, and a front that two strings share does not count.
pub fn big_bytes_in_order()
    ensures order { (width a b : ℕ) (s t : List ℕ) → a < 256 ^ width → b < 256 ^ width
        → slice_cmp nat_cmp (big_bytes width a ++ s) (big_bytes width b ++ t)
        ≡ ordering_then (nat_cmp a b) (slice_cmp nat_cmp s t) }
    ensures apart { (width a b : ℕ) (s t : List ℕ) → a < 256 ^ width → b < 256 ^ width
        → big_bytes width a ++ s ≡ big_bytes width b ++ t → (a ≡ b) × (s ≡ t) }
    ensures shared { (front a b : List ℕ)
        → slice_cmp nat_cmp (front ++ a) (front ++ b) ≡ slice_cmp nat_cmp a b }
{}
