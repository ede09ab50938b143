// Rows that were found, in the order of their identifiers, each once.
ghost use Rattle.std.specs.Prelude.{◌≡◌, map, length, IfOk};
ghost use Rattle.gm_program.specs.InOrder.{AreBound, in_order, seen};

use gm_base::NoMemory;
use gm_scan::FoundRows;
use std::alloc::Global;

/// A row: an identifier, and bytes.
pub(super) type Row<'a> = (&'a [u8], &'a [u8]);

/// The rows in byte order of their identifiers, each identifier once.
pub(super) fn rows_in_order(alloc: Global, found: &FoundRows) -> Result<Vec<Row<'_>>, NoMemory>
    requires { AreBound found.now }
    ensures { IfOk result (λ rows. map seen rows.items ≡ in_order found.now) }
{
    let mut rows = rows_of(alloc, found)?;
    rows.sort_unstable();
    rows.dedup();
    Ok(rows)
}

/// How many identifiers there are among the rows.
pub(super) fn count_in_order(alloc: Global, found: &FoundRows) -> Result<u64, NoMemory>
    requires { AreBound found.now }
    ensures { IfOk result (λ count. count ≡ length (in_order found.now)) }
{
    let rows = rows_in_order(alloc, found)?;
    Ok(rows.len() as u64)
}

// The rows as they were found.
fn rows_of(alloc: Global, found: &FoundRows) -> Result<Vec<Row<'_>>, NoMemory>
    ensures { IfOk result (λ rows. map seen rows.items ≡ found.now) }
{
    let mut rows = Vec::with_capacity(alloc, found.len())?;
    'rows: for i in 0..found.len() {
        rows.push(found.get(i))?;
    }
    Ok(rows)
}
