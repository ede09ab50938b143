// The laws of printed rows.
ghost use Rattle.std.specs.Prelude.{◌≡◌, ◌≢◌, [], ◌∷◌, ℕ, List, Some, Ok};
ghost use Rattle.gm_feature.specs.declared.feature.Feature.{Feature};
ghost use Rattle.gm_feature.specs.Feature.{Fits};
ghost use Rattle.gm_rows.specs.Lines.{AreOnOneLine};
ghost use Rattle.gm_rows.specs.Printer.{record_text, row_text, HaveNoLineFeed};
ghost use Rattle.gm_rows.specs.Reader.{record_of, row_of};
ghost use Rattle.gm_types.specs.Specification.{Specification};

use gm_calendar::printed_instants_are_read;
use gm_wkt::{printed_is_spelled, spelled_on_a_line};

/// The law of printed records, for proofs: fields without 0x0A, the first of them not empty, are
/// read by `csv` as exactly one record of these fields. It does nothing.
pub fn printed_records_are_read()
    ensures { (first : List ℕ) → (fields : List (List ℕ)) → first ≢ []
        → HaveNoLineFeed (first ∷ fields)
        → record_of (record_text first fields) ≡ Some (first ∷ fields) }
{}

/// The law of printed rows, for proofs: a feature that fits a type and has no 0x0A in a text is
/// read from its row. It does nothing.
pub fn printed_rows_are_read()
    ensures { (t : Specification) → (feature : Feature) → Fits t feature
        → AreOnOneLine feature.values
        → row_of t (row_text feature) ≡ Ok feature }
{
    printed_instants_are_read();
    printed_is_spelled();
    spelled_on_a_line();
}

/// The law of rows that are read, for proofs: the feature of a row fits the type. It does nothing.
pub fn read_rows_fit()
    ensures { (t : Specification) → (row : List ℕ) → (feature : Feature)
        → row_of t row ≡ Ok feature → Fits t feature }
{}
