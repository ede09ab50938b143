// Laws of the bounds, for the crates above.
ghost use Rattle.std.specs.Prelude.{◌≡◌, ◌<◌, ◌≤◌, ◌++◌, ℕ, List, All, length};
ghost use Rattle.std.specs.Prelude.{true, Option, Some, option_map};
ghost use Rattle.std.specs.Bool.{Decides};
ghost use Rattle.std.specs.Str.{bytes_eq};
ghost use Rattle.gm_base.specs.Identifier.{is_identifier};
ghost use Rattle.gm_types.specs.FeatureType.{HoldsTogether};
ghost use Rattle.gm_types.specs.declared.kind.Kind.{Kind};
ghost use Rattle.gm_types.specs.Specification.{Specification, default_geometry_of, default_date_of};
ghost use Rattle.gm_feature.specs.declared.feature.Feature.{Feature};
ghost use Rattle.gm_feature.specs.Feature.{Fits, value_at};
ghost use Rattle.gm_filter.specs.Suitability.{Suits};
ghost use Rattle.gm_filter.specs.Tree.{Tree};
ghost use Rattle.gm_filter.specs.Truth.{is_true};
ghost use Rattle.gm_bounds.specs.declared.bound.Bound.TheVariants.{Listed};
ghost use Rattle.gm_bounds.specs.declared.byte_range.ByteRange.{ByteRange};
ghost use Rattle.gm_bounds.specs.Space.{boxes_of};
ghost use Rattle.gm_bounds.specs.ByteRange.{is_form_in, joined};
ghost use Rattle.gm_bounds.specs.Values.{byte_ranges_of, form_of};
ghost use Rattle.gm_bounds.specs.ClosedBox.{is_geometry_in};
ghost use Rattle.gm_bounds.specs.Found.{IsFound};
ghost use Rattle.gm_bounds.specs.Identifiers.{ids_of};
ghost use Rattle.gm_bounds.specs.Interval.{is_date_in};
ghost use Rattle.gm_bounds.specs.Time.{intervals_of};
ghost use Rattle.gm_bounds.specs.OneValue.{IsOfOneValue, is_of_one_value};

use gm_feature::fitting_features_have_values;
use gm_filter::like_begins;
use gm_geom::extents_are_least;
use gm_lexi::{
    begins_where_within, fronts_decide, no_value_is_a_front, numbers_as_places, values_in_order,
};
use gm_shapes::{meets_where_within, overlaps_a_box_it_meets, overlaps_where_meeting};

/// Where boxes are a list, a feature of which the filter is true has its default geometry in one of
/// them: a point lies in it, and the extent of any other geometry overlaps it. A null is in none.
pub fn geometries_are_in_boxes()
    ensures { (s : Specification) (t : Tree) (f : Feature) (d : ℕ) → Suits s t → Fits s f
        → is_true f t ≡ true
        → default_geometry_of s ≡ Some d → IsFound (is_geometry_in (value_at f d)) (boxes_of s t) }
{
    extents_are_least();
    overlaps_where_meeting();
    overlaps_a_box_it_meets();
    meets_where_within();
    fitting_features_have_values();
}

/// Where intervals are a list, a feature of which the filter is true has its default date in one of
/// them. A null is in none.
pub fn dates_are_in_intervals()
    ensures { (s : Specification) (t : Tree) (f : Feature) (d : ℕ) → HoldsTogether s → Suits s t
        → Fits s f → is_true f t ≡ true
        → default_date_of s ≡ Some d → IsFound (is_date_in (value_at f d)) (intervals_of s t) }
{
    fitting_features_have_values();
}

/// Where byte ranges are a list, a feature of which the filter is true has the lexicoded form of
/// its value at the attribute in one of them. A null has no form, and is in none.
pub fn forms_are_in_ranges()
    ensures { (s : Specification) (t : Tree) (f : Feature) (d : ℕ) → Suits s t → Fits s f
        → is_true f t ≡ true
        → IsFound (is_form_in (form_of (value_at f d))) (byte_ranges_of s d t) }
{
    forms_and_more_are_in_ranges();
}

/// The same of the form with any bytes behind it, as an identifier stands behind it in a key.
pub fn forms_and_more_are_in_ranges()
    ensures { (s : Specification) (t : Tree) (f : Feature) (d : ℕ) (rest : List ℕ) → Suits s t
        → Fits s f → is_true f t ≡ true → All (λ byte. byte < 256) rest
        → IsFound (is_form_in (option_map (λ form. form ++ rest) (form_of (value_at f d))))
        (byte_ranges_of s d t) }
{
    fitting_features_have_values();
    like_begins();
    begins_where_within();
    fronts_decide();
    values_in_order();
    no_value_is_a_front();
}

/// The least range that holds two holds whatever is in either of them.
pub fn joined_ranges_hold_both()
    ensures first { (o : Option (List ℕ)) (r s : ByteRange) → is_form_in o r ≡ true
        → is_form_in o (joined r s) ≡ true }
    ensures second { (o : Option (List ℕ)) (r s : ByteRange) → is_form_in o s ≡ true
        → is_form_in o (joined r s) ≡ true }
{}

/// The byte ranges of a filter, where they are a list, number at most eight.
pub fn byte_ranges_are_few()
    ensures { (s : Specification) (t : Tree) (d : ℕ) (ranges : List ByteRange)
        → byte_ranges_of s d t ≡ Listed ranges → length ranges ≤ 8 }
{}

/// An identifier is of bytes.
pub fn identifiers_are_bytes()
    ensures { (id : List ℕ) → is_identifier id ≡ true → All (λ byte. byte < 256) id }
{}

/// Where identifiers are a list, that of a feature of which the filter is true is among them.
pub fn identifiers_are_listed()
    ensures { (s : Specification) (t : Tree) (f : Feature) → Suits s t → Fits s f
        → is_true f t ≡ true
        → IsFound (bytes_eq f.id) (ids_of t) }
{}

/// The test of one value says exactly that.
pub fn one_value_is_as_told()
    ensures { (k : Kind) (r : ByteRange) → Decides (is_of_one_value k r) (IsOfOneValue k r) }
{
    numbers_as_places();
}
