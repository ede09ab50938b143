// Laws of keys, for proofs. Each is the contract of a function that does nothing but call those
// that it rests on.
ghost use Rattle.std.specs.Prelude.{◌≡◌, ◌<◌, ◌≤◌, ◌^◌, ◌&&◌, ◌==◌, nat_le, nat_eq};
ghost use Rattle.std.specs.Prelude.{ℕ, List, [], ◌∷◌, ◌++◌, Some, is_none, true};
ghost use Rattle.std.specs.Ordering.{nat_cmp, is_le};
ghost use Rattle.std.specs.Cmp.Lexicographic.{pointwise, slice_cmp};
ghost use Rattle.gm_lexi.specs.Ends.{after_of, is_from_to};
ghost use Rattle.gm_types.specs.declared.index.IndexKind.{IndexKind};
ghost use Rattle.gm_types.specs.FeatureType.{IsType, HoldsTogether};
ghost use Rattle.gm_types.specs.Index.{has_index};
ghost use Rattle.gm_types.specs.Specification.{Specification, shards_of};
ghost use Rattle.gm_feature.specs.declared.feature.Feature.{Feature};
ghost use Rattle.gm_feature.specs.Feature.{Fits};
ghost use Rattle.gm_keys.specs.Key.{prefix_of, shard_of, code_front, bin_front};
ghost use Rattle.gm_keys.specs.Key.{bin_code_front, key_of};
ghost use Rattle.gm_keys.specs.Layout.{IsLaidOut};
ghost use Rattle.gm_keys.specs.Whereabouts.{lacks_value};

use gm_feature::fitting_features_have_values;
use gm_geom::extents_are_least;
use gm_lexi::{big_bytes_in_order, fronts_decide, no_value_is_a_front};

/// The key of a feature that fits is laid out as one of its index, and ends with its identifier.
pub fn keys_are_laid_out()
    ensures { (t : Specification) (kind : IndexKind) (feature : Feature) (key : List ℕ)
        → Fits t feature → key_of t kind feature ≡ Some key
        → (middle : List ℕ) × IsLaidOut t kind key middle feature.id }
{}

/// Keys tell features apart: where a key of one feature is one of another, their types have one
/// number, it is in one index, and where the types are one the features have one identifier.
pub fn keys_tell_features_apart()
    ensures { (s t : Specification) (one other : IndexKind) (f g : Feature) (key : List ℕ)
        → IsType s → IsType t → Fits s f → Fits t g
        → key_of s one f ≡ Some key → key_of t other g ≡ Some key
        → (s.number ≡ t.number) × (one ≡ other) × (s ≡ t → f.id ≡ g.id) }
{
    no_value_is_a_front();
    big_bytes_in_order();
}

/// A key lies between the fronts of a shard and two codes exactly where it is of that shard and its
/// code is from the one to the other.
pub fn keys_between_codes()
    ensures codes { (t : Specification) (kind : IndexKind) (shard other low high code : ℕ)
        (id : List ℕ)
        → other < 256 → low < 2 ^ 64 → high < 2 ^ 64 → code < 2 ^ 64
        → is_from_to (code_front (prefix_of t kind) shard low)
        (after_of (code_front (prefix_of t kind) shard high))
        (code_front (prefix_of t kind) other code ++ id)
        ≡ ((shard == other) && (nat_le low code && nat_le code high)) }
    ensures in_bin { (t : Specification) (kind : IndexKind) (shard other bin at low high code : ℕ)
        (id : List ℕ)
        → other < 256 → bin < 2 ^ 16 → at < 2 ^ 16 → low < 2 ^ 64 → high < 2 ^ 64 → code < 2 ^ 64
        → is_from_to (bin_code_front (prefix_of t kind) shard bin low)
        (after_of (bin_code_front (prefix_of t kind) shard bin high))
        (bin_code_front (prefix_of t kind) other at code ++ id)
        ≡ ((shard == other) && ((bin == at) && (nat_le low code && nat_le code high))) }
    ensures bins { (t : Specification) (kind : IndexKind) (shard other first last bin code : ℕ)
        (id : List ℕ)
        → other < 256 → first < 2 ^ 16 → last < 2 ^ 16 → bin < 2 ^ 16
        → is_from_to (bin_front (prefix_of t kind) shard first)
        (after_of (bin_front (prefix_of t kind) shard last))
        (bin_code_front (prefix_of t kind) other bin code ++ id)
        ≡ ((shard == other) && (nat_le first bin && nat_le bin last)) }
{
    fronts_decide();
    big_bytes_in_order();
}

/// A key lies between two bounds behind a prefix exactly where what follows its prefix does.
pub fn keys_between_values()
    ensures both { (prefix low high rest : List ℕ)
        → is_from_to (prefix ++ low) (Some (prefix ++ high)) (prefix ++ rest)
        ≡ is_from_to low (Some high) rest }
    ensures to_the_end { (t : Specification) (kind : IndexKind) (low rest : List ℕ)
        → is_from_to (prefix_of t kind ++ low) (after_of (prefix_of t kind))
        (prefix_of t kind ++ rest)
        ≡ is_le (slice_cmp nat_cmp low rest) }
{
    fronts_decide();
    big_bytes_in_order();
}

/// Between a key and that key with a byte 0 behind it lies that key alone.
pub fn keys_of_one_identifier()
    ensures { (key other : List ℕ)
        → is_from_to key (Some (key ++ 0 ∷ [])) other ≡ pointwise nat_eq key other }
{}

/// A feature that fits has no key in an index of its type exactly where a value that the index
/// needs is null.
pub fn keys_are_missing_where_values_are()
    ensures { (t : Specification) (kind : IndexKind) (feature : Feature) → HoldsTogether t
        → Fits t feature
        → has_index t kind ≡ true → is_none (key_of t kind feature) ≡ lacks_value t kind feature }
{
    extents_are_least();
    fitting_features_have_values();
}

/// The prefixes of the indexes of types of one store tell these apart.
pub fn prefixes_tell_indexes_apart()
    ensures { (s t : Specification) (one other : IndexKind) (x y : List ℕ) → IsType s → IsType t
        → has_index s one ≡ true → has_index t other ≡ true
        → prefix_of s one ++ x ≡ prefix_of t other ++ y
        → (s.number ≡ t.number) × (one ≡ other) × (x ≡ y) }
{
    big_bytes_in_order();
}

/// Whatever lies between two bounds of an index begins with the prefix of the index.
pub fn keys_within_begin_alike()
    ensures codes { (t : Specification) (kind : IndexKind) (shard low high : ℕ) (key : List ℕ)
        → shard < 255
        → is_from_to (code_front (prefix_of t kind) shard low)
        (after_of (code_front (prefix_of t kind) shard high)) key ≡ true
        → (rest : List ℕ) × (key ≡ prefix_of t kind ++ rest) }
    ensures in_bin { (t : Specification) (kind : IndexKind) (shard bin low high : ℕ) (key : List ℕ)
        → shard < 255
        → is_from_to (bin_code_front (prefix_of t kind) shard bin low)
        (after_of (bin_code_front (prefix_of t kind) shard bin high)) key ≡ true
        → (rest : List ℕ) × (key ≡ prefix_of t kind ++ rest) }
    ensures bins { (t : Specification) (kind : IndexKind) (shard first last : ℕ) (key : List ℕ)
        → shard < 255
        → is_from_to (bin_front (prefix_of t kind) shard first)
        (after_of (bin_front (prefix_of t kind) shard last)) key ≡ true
        → (rest : List ℕ) × (key ≡ prefix_of t kind ++ rest) }
    ensures values { (prefix low high key : List ℕ)
        → is_from_to (prefix ++ low) (Some (prefix ++ high)) key ≡ true
        → (rest : List ℕ) × (key ≡ prefix ++ rest) }
    ensures to_the_end { (t : Specification) (kind : IndexKind) (low key : List ℕ) → IsType t
        → has_index t kind ≡ true
        → is_from_to (prefix_of t kind ++ low) (after_of (prefix_of t kind)) key ≡ true
        → (rest : List ℕ) × (key ≡ prefix_of t kind ++ rest) }
{}

/// A shard is one of those of its type.
pub fn shards_are_few()
    ensures { (t : Specification) (id : List ℕ) → 1 ≤ shards_of t → shard_of t id < shards_of t }
{}
