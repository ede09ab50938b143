// Rows printed from the bytes that they have in the table.
ghost use Rattle.std.specs.Prelude.{◌≡◌, ◌++◌, List, length, map, IfOk, OnOk};
ghost use Rattle.std.specs.List.{flat_map};
ghost use Rattle.std.specs.String.{string_bytes};
ghost use Rattle.gm_feature.specs.declared.feature.Feature.{Feature};
ghost use Rattle.gm_script.specs.Reply.{row_line};
ghost use Rattle.gm_program.specs.InOrder.{AreBound, AreRowsOf, in_order, seen};

use super::in_order::{Row, rows_in_order};
use gm_base::{NoMemory, Text};
use gm_feature::Stored;
use gm_rows::append_stored_row;
use gm_scan::FoundRows;
use gm_types::FeatureType;
use std::alloc::Global;

/// The rows of features, each a line with its end, and how many they are.
#[derive(Drop)]
pub(super) struct Printed {
    pub(super) rows: Text,
    pub(super) matched: u64,
}

/// Prints the rows that were found of this type, in the order of their identifiers, each once.
pub(super) fn print_found(
    alloc: Global,
    of: &FeatureType,
    found: &FoundRows,
) -> Result<Printed, NoMemory>
    requires bound { AreBound found.now }
    requires rows { (features : List Feature) × AreRowsOf of.now (in_order found.now) features }
    ensures { (features : List Feature) → AreRowsOf of.now (in_order found.now) features
        → IfOk result (λ printed. (printed.rows ≡ flat_map row_line features)
        × (printed.matched ≡ length features)) }
{
    let rows = rows_in_order(alloc, found)?;
    let mut text = String::with_capacity(alloc, room_of(rows.as_slice()))?;
    append_rows(alloc, &mut text, of, rows.as_slice())?;
    let matched = rows.len() as u64;
    Ok(Printed {
        rows: Text::from_string(text),
        matched,
    })
}

// Appends the row of each feature, with a line end.
fn append_rows(
    alloc: Global,
    text: &mut String,
    of: &FeatureType,
    rows: &[Row<'_>],
) -> Result<(), NoMemory>
    requires { (features : List Feature) × AreRowsOf of.now (map seen rows.now) features }
    ensures { (features : List Feature) → AreRowsOf of.now (map seen rows.now) features
        → OnOk result (string_bytes text.new
        ≡ string_bytes text.old ++ flat_map row_line features) }
{
    'rows: for row in rows {
        append_stored_row(alloc, text, &Stored { of, bytes: row.1 })?;
        text.push_str("\n")?;
    }
    Ok(())
}

// About how many bytes the rows take: printed they are some two times as long.
fn room_of(rows: &[Row<'_>]) -> usize {
    let mut room = 0usize;
    for row in rows {
        room = room.saturating_add(row.1.len().saturating_mul(2));
    }
    room
}
