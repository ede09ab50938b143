// Laws of the definitions, for the crates above.
ghost use Rattle.std.specs.Int.{w16};
ghost use Rattle.std.specs.Prelude.{◌≡◌, ◌<◌, ◌^◌, ◌++◌, ℕ, ℤ, List, true};
ghost use Rattle.std.specs.Prelude.{length, Some, is_some, IsUtf8};
ghost use Rattle.gm_base.specs.Identifier.{is_identifier};
ghost use Rattle.gm_calendar.specs.Bin.{bin_at};
ghost use Rattle.gm_types.specs.declared.kind.Kind.{Kind};
ghost use Rattle.gm_types.specs.FeatureType.{IsType};
ghost use Rattle.gm_types.specs.Specification.{Specification, kinds_of, kind_at};
ghost use Rattle.gm_types.specs.Specification.{default_date_of, period_of};
ghost use Rattle.gm_feature.specs.declared.feature.Feature.{Feature};
ghost use Rattle.gm_feature.specs.declared.stored.Stored.{Stored};
ghost use Rattle.gm_feature.specs.declared.value.Value.TheVariants.{Date, Text};
ghost use Rattle.gm_feature.specs.Feature.{Fits, value_at, has_time_index};
ghost use Rattle.gm_feature.specs.declared.value.Value.{Value};
ghost use Rattle.gm_feature.specs.Reader.{identifier_from, value_from, feature_from};
ghost use Rattle.gm_feature.specs.Writer.{string_bytes, value_bytes, feature_bytes};
ghost use Rattle.gm_feature.specs.Stored.{IsStored};
ghost use Rattle.gm_feature.specs.Value.{value_fits, is_sound};

/// A feature that fits has as many values as its type has attributes, each one that the kind of its
/// attribute may hold, and a default date in a bin where an index over time is enabled.
pub fn fitting_features_have_values()
    ensures count { (t : Specification) (f : Feature) → Fits t f
        → length f.values ≡ length (kinds_of t) }
    ensures value { (t : Specification) (f : Feature) (n : ℕ) (k : Kind) → Fits t f
        → kind_at t n ≡ Some k → value_fits k (value_at f n) ≡ true }
    ensures date { (t : Specification) (f : Feature) (n : ℕ) (at : ℤ) → Fits t f
        → has_time_index t ≡ true → default_date_of t ≡ Some n → value_at f n ≡ Date at
        → is_some (bin_at (period_of t) at) ≡ true }
{}

/// Two features that fit a type and have the same bytes are one.
pub fn bytes_tell_features_apart()
    ensures { (t : Specification) (f g : Feature) → Fits t f → Fits t g
        → feature_bytes f ≡ feature_bytes g → f ≡ g }
{}

/// The bytes of a feature that fits are so few that four bytes hold their number.
pub fn fitting_features_have_few_bytes()
    ensures { (t : Specification) (f : Feature) → IsType t → Fits t f
        → length (feature_bytes f) < 2 ^ 32 }
{}

/// The spelling of an identifier, of a value that a kind may hold, and of a feature that fits is
/// read again by the functions that tell what bytes spell, whatever follows the first two.
pub fn spellings_are_read()
    ensures identifier { (id rest : List ℕ) → is_identifier id ≡ true
        → identifier_from (string_bytes w16 id ++ rest) ≡ Some (id, rest) }
    ensures value { (k : Kind) (v : Value) (rest : List ℕ) → value_fits k v ≡ true
        → value_from k (value_bytes v ++ rest) ≡ Some (v, rest) }
    ensures feature { (t : Specification) (f : Feature) → Fits t f
        → feature_from t (feature_bytes f) ≡ Some f }
{}

/// The identifier of a feature that is stored is UTF-8, and so is a text that is sound.
pub fn stored_texts_are_utf8()
    ensures identifier { (s : Stored) (f : Feature) → IsStored s f → IsUtf8 f.id }
    ensures text { (text : List ℕ) → is_sound (Text text) ≡ true → IsUtf8 text }
{}
