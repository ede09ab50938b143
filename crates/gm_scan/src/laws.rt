// Laws of rows and ranges, for proofs. Each is the contract of a function that does nothing but
// call those that it rests on.
ghost use Rattle.std.specs.Prelude.{◌≡◌, ◌≤◌, ◌++◌, List, All, length};
ghost use Rattle.gm_base.specs.Spans.{Span};
ghost use Rattle.gm_table.specs.Apart.{AreApart};
ghost use Rattle.gm_table.specs.Sorted.{Rows};
ghost use Rattle.gm_table.specs.Spans.{rows_in};
ghost use Rattle.gm_types.specs.Specification.{Specification};
ghost use Rattle.gm_feature.specs.declared.feature.Feature.{Feature};
ghost use Rattle.gm_scan.specs.Held.{HasFeature, Hold};

use gm_feature::bytes_tell_features_apart;

/// Rows of which each has the bytes of a feature that fits hold one list of features, and rows
/// after rows hold features after features.
pub fn rows_hold_features()
    ensures some { (t : Specification) (rows : Rows) → All (λ row. HasFeature t row.1) rows
        → (held : List Feature) × Hold t rows held }
    ensures one { (t : Specification) (rows : Rows) (held other : List Feature) → Hold t rows held
        → Hold t rows other → held ≡ other }
    ensures joined { (t : Specification) (front back : Rows) (held others : List Feature)
        → Hold t front held → Hold t back others → Hold t (front ++ back) (held ++ others) }
{
    bytes_tell_features_apart();
}

/// Ranges that have no key in common have no more rows than the table.
pub fn ranges_apart_have_few_rows()
    ensures { (ranges : List Span) (rows : Rows) → AreApart ranges
        → length (rows_in ranges rows) ≤ length rows }
{}
