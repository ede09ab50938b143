// The laws of inclusion and of spans. Each is the contract of a function that does nothing but call
// those that it rests on.
ghost use Rattle.std.specs.Prelude.{◌≡◌, ◌≤◌, ℕ, ℤ, List, Some, true, length, MatchOption};
ghost use Rattle.gm_table.specs.Apart.{AreApart};
ghost use Rattle.gm_calendar.specs.declared.period.Period.{Period};
ghost use Rattle.gm_calendar.specs.Bin.{bin_at, HasNoBin, IsBinOf};
ghost use Rattle.gm_types.specs.declared.index.IndexKind.{IndexKind};
ghost use Rattle.gm_types.specs.declared.index.IndexKind.TheVariants.{Id, Z2, Z3, Xz2, Xz3, Attr};
ghost use Rattle.gm_types.specs.FeatureType.{IsType};
ghost use Rattle.gm_types.specs.Index.{has_index};
ghost use Rattle.gm_types.specs.Specification.{Specification, precision_of, z2_bits_of, z3_bits_of};
ghost use Rattle.gm_filter.specs.Tree.{Tree};
ghost use Rattle.gm_bounds.specs.Identifiers.{ids_of};
ghost use Rattle.gm_plan.specs.KeyRanges.{key_ranges};
ghost use Rattle.gm_feature.specs.declared.feature.Feature.{Feature};
ghost use Rattle.gm_feature.specs.Feature.{Fits};
ghost use Rattle.gm_keys.specs.Key.{key_of};
ghost use Rattle.gm_bounds.specs.declared.ranges.KeyRanges.{KeyRanges};
ghost use Rattle.gm_trees.specs.Z.{IsZSize};
ghost use Rattle.gm_trees.specs.Xz.{IsXzSize};
ghost use Rattle.gm_plan.specs.Covering.{CoversPoints, CoversObjects};
ghost use Rattle.gm_plan.specs.Inside.{KeepsTarget, LosesNone, count_of, is_inside, read_spans};
ghost use Rattle.gm_plan.specs.Spans.{spans_of};

use gm_bounds::{
    byte_ranges_are_few, dates_are_in_intervals, forms_and_more_are_in_ranges,
    geometries_are_in_boxes, identifiers_are_bytes, identifiers_are_listed,
    joined_ranges_hold_both,
};
use gm_calendar::{Period, bins_follow_time};
use gm_curve::normal_rises;
use gm_feature::fitting_features_have_values;
use gm_keys::{
    keys_are_laid_out, keys_between_codes, keys_between_values, keys_of_one_identifier,
    keys_within_begin_alike, prefixes_tell_indexes_apart, shards_are_few,
};
use gm_lexi::{big_bytes_in_order, fronts_decide};
use gm_split::{
    explained_runs_have_codes, explained_runs_rise, level_runs_are_level_sets, objects_are_covered,
    points_are_covered, stop_level_is_the_stop,
};
use gm_trees::{XzTree, ZTree};

// Of the codes of points in D dimensions.
fn points<const D: usize, const B: u32>()
    requires { IsZSize D B }
    ensures { CoversPoints D B }
{
    points_are_covered::<D, B>();
    explained_runs_have_codes(&ZTree::<D, B>);
    explained_runs_rise(&ZTree::<D, B>);
    level_runs_are_level_sets(&ZTree::<D, B>);
    stop_level_is_the_stop(&ZTree::<D, B>);
}

// Of the codes of objects in D dimensions.
fn objects<const D: usize, const G: u32>()
    requires { IsXzSize D G }
    ensures { CoversObjects D G }
{
    objects_are_covered::<D, G>();
    explained_runs_have_codes(&XzTree::<D, G>);
    explained_runs_rise(&XzTree::<D, G>);
    level_runs_are_level_sets(&XzTree::<D, G>);
    stop_level_is_the_stop(&XzTree::<D, G>);
}

// Of the codes of each width that an index may have.
fn z2_curve()
    ensures { (s : Specification) → CoversPoints 2 (z2_bits_of s) }
{
    points::<2, 8>();
    points::<2, 16>();
    points::<2, 24>();
    points::<2, 31>();
}

fn z3_curve()
    ensures { (s : Specification) → CoversPoints 3 (z3_bits_of s) }
{
    points::<3, 8>();
    points::<3, 12>();
    points::<3, 16>();
    points::<3, 21>();
}

fn xz2_curve()
    ensures { (s : Specification) → CoversObjects 2 (precision_of s) }
{
    objects::<2, 4>();
    objects::<2, 8>();
    objects::<2, 12>();
    objects::<2, 16>();
}

fn xz3_curve()
    ensures { (s : Specification) → CoversObjects 3 (precision_of s) }
{
    objects::<3, 4>();
    objects::<3, 8>();
    objects::<3, 12>();
    objects::<3, 16>();
}

/// The index `id` loses no feature of which the filter is true.
pub fn id_keys_are_inside()
    ensures { LosesNone Id }
{
    identifiers_are_listed();
    keys_between_values();
    keys_of_one_identifier();
}

/// The index `z2` loses no feature of which the filter is true.
pub fn z2_keys_are_inside()
    ensures { LosesNone Z2 }
{
    geometries_are_in_boxes();
    fitting_features_have_values();
    normal_rises();
    keys_between_codes();
    shards_are_few();
    z2_curve();
}

/// The index `xz2` loses no feature of which the filter is true.
pub fn xz2_keys_are_inside()
    ensures { LosesNone Xz2 }
{
    geometries_are_in_boxes();
    fitting_features_have_values();
    normal_rises();
    keys_between_codes();
    shards_are_few();
    xz2_curve();
}

// What the bins of each period are.
fn bins()
    ensures { (period : Period) (at : ℤ)
        → MatchOption (bin_at period at) (HasNoBin period at) (IsBinOf period at) }
{
    bins_follow_time(Period::Day);
    bins_follow_time(Period::Week);
    bins_follow_time(Period::Month);
    bins_follow_time(Period::Year);
}

/// The index `z3` loses no feature of which the filter is true.
pub fn z3_keys_are_inside()
    ensures { LosesNone Z3 }
{
    geometries_are_in_boxes();
    dates_are_in_intervals();
    fitting_features_have_values();
    normal_rises();
    keys_between_codes();
    shards_are_few();
    bins();
    z3_curve();
}

/// The index `xz3` loses no feature of which the filter is true.
pub fn xz3_keys_are_inside()
    ensures { LosesNone Xz3 }
{
    geometries_are_in_boxes();
    dates_are_in_intervals();
    fitting_features_have_values();
    normal_rises();
    keys_between_codes();
    shards_are_few();
    bins();
    xz3_curve();
}

/// The index of an attribute loses no feature of which the filter is true.
pub fn attr_keys_are_inside()
    ensures { (number : ℕ) → LosesNone (Attr number) }
{
    forms_and_more_are_in_ranges();
    identifiers_are_bytes();
    joined_ranges_hold_both();
    keys_between_values();
}

/// No index that applies loses a feature of which the filter is true.
pub fn keys_are_inside()
    ensures { (kind : IndexKind) → LosesNone kind }
{
    id_keys_are_inside();
    z2_keys_are_inside();
    z3_keys_are_inside();
    xz2_keys_are_inside();
    xz3_keys_are_inside();
    attr_keys_are_inside();
}

/// The ranges of the index of an attribute number at most eight.
pub fn value_ranges_are_few()
    ensures { (s : Specification) (t : Tree) (target number : ℕ)
        → length (key_ranges s (Attr number) t target).ranges ≤ 8 }
{
    byte_ranges_are_few();
}

/// A key of a feature that is inside the spans of an index of a type, whatever the ranges, is one
/// of that index and of that type's number.
pub fn keys_inside_are_of_the_index()
    ensures { (s u : Specification) (kind other : IndexKind) (ranges : KeyRanges) (f : Feature)
        (key : List ℕ) → IsType s → IsType u → has_index s kind ≡ true → has_index u other ≡ true
        → ranges.shards ≤ 255 → Fits u f → key_of u other f ≡ Some key
        → is_inside key (spans_of s kind ranges) ≡ true
        → (s.number ≡ u.number) × (kind ≡ other) }
{
    keys_within_begin_alike();
    keys_are_laid_out();
    prefixes_tell_indexes_apart();
}

/// The ranges of an index over cells number at most the target, and those of `id` are as many as
/// the identifiers, or one where these are the world.
pub fn ranges_are_few()
    ensures z2 { KeepsTarget Z2 }
    ensures z3 { KeepsTarget Z3 }
    ensures xz2 { KeepsTarget Xz2 }
    ensures xz3 { KeepsTarget Xz3 }
    ensures id { (s : Specification) (t : Tree) (target : ℕ)
        → length (key_ranges s Id t target).ranges ≡ count_of (ids_of t) }
{
    z2_curve();
    z3_curve();
    xz2_curve();
    xz3_curve();
}

/// No key is inside two of the spans that a query by an index reads.
pub fn spans_are_apart()
    ensures { (s : Specification) (kind : IndexKind) (t : Tree) (target : ℕ) → 1 ≤ target
        → AreApart (read_spans s kind t target) }
{
    fronts_decide();
    big_bytes_in_order();
    keys_between_codes();
    keys_of_one_identifier();
    z2_curve();
    z3_curve();
    xz2_curve();
    xz3_curve();
}
