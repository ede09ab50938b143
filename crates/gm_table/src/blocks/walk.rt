// Rows of blocks, handed out in order.
ghost use Rattle.std.specs.Prelude.{◌≡◌, ◌≤◌, ◌<◌, ℕ, All, OnOk, IfOk, IfErr, length, take, drop};
ghost use Rattle.gm_base.specs.Counter.{capped_sum};
ghost use Rattle.gm_base.specs.Tally.{tally_number};
ghost use Rattle.gm_table.specs.Blocks.{IsPlace, lists_of, pairs_of, rows_of, rows_at};
ghost use Rattle.gm_table.specs.Cursor.{rows_below, rows_after};
ghost use Rattle.gm_table.specs.Sorted.{IsRising};
ghost use Rattle.gm_table.specs.Visit.{Handed, Stops};

use crate::blocks::block::Block;
use crate::blocks::search::{Place, place_in};
use crate::end::End;
use crate::{Row, Visit};
use gm_base::{NoMemory, Tally};
use std::alloc::Global;

/// Hands out the rows from the place on that are before the key, and answers the place of the key.
pub(crate) fn hand_out_until<V: Visit>(
    alloc: Global,
    blocks: &[Block],
    from: Place,
    high: &End<'_>,
    visit: &mut V,
    tally: &mut Tally,
) -> Result<Place, NoMemory>
    requires rising { IsRising (rows_of (lists_of blocks.now)) }
    requires place { IsPlace from.block from.row blocks.now }
    requires admits { All (λ row. V.admits visit.old row.0 row.1)
        (rows_below high.now (rows_at from.block from.row blocks.now)) }
    ensures place { IfOk result (λ end. IsPlace end.block end.row blocks.now) }
    ensures left { IfOk result (λ end. rows_at end.block end.row blocks.now
        ≡ rows_after high.now (rows_at from.block from.row blocks.now)) }
    ensures handed { OnOk result (Handed V.takes visit.old
        (rows_below high.now (rows_at from.block from.row blocks.now)) visit.new) }
    ensures tally { OnOk result (tally_number tally.new ≡ capped_sum (tally_number tally.old)
        (length (rows_below high.now (rows_at from.block from.row blocks.now)))) }
    ensures stopped { IfErr result (λ fault. (handed : ℕ)
        × Stops V.takes visit.old
        (rows_below high.now (rows_at from.block from.row blocks.now)) fault visit.new handed
        × (tally_number tally.new ≡ capped_sum (tally_number tally.old) handed)) }
{
    let mut at = from;
    'walk: while at.block < blocks.len() {
        let rest = rest_of(blocks[at.block].rows.as_slice(), at.row);
        let count = hand_out_before(alloc, rest, high, visit, tally)?;
        let end = Place {
            block: at.block,
            row: at.row + count,
        };
        if count < rest.len() {
            return Ok(end);
        }
        if end.block + 1 == blocks.len() {
            return Ok(end);
        }
        at = Place {
            block: end.block + 1,
            row: 0,
        };
    }
    Ok(at)
}

/// The rows from one on.
pub(crate) fn rest_of(rows: &[Row], first: usize) -> &[Row]
    requires { first ≤ length rows.now }
    ensures { result.now ≡ drop first rows.now }
{
    &rows[first..]
}

// Hands out those of the rows that are before the key, and answers how many these are.
fn hand_out_before<V: Visit>(
    alloc: Global,
    rows: &[Row],
    high: &End<'_>,
    visit: &mut V,
    tally: &mut Tally,
) -> Result<usize, NoMemory>
    requires rising { IsRising (pairs_of rows.now) }
    requires admits { All (λ row. V.admits visit.old row.0 row.1)
        (rows_below high.now (pairs_of rows.now)) }
    ensures bound { IfOk result (λ count. count ≤ length rows.now) }
    ensures before { IfOk result (λ count. pairs_of (take count rows.now)
        ≡ rows_below high.now (pairs_of rows.now)) }
    ensures from { IfOk result (λ count. pairs_of (drop count rows.now)
        ≡ rows_after high.now (pairs_of rows.now)) }
    ensures handed { OnOk result
        (Handed V.takes visit.old (rows_below high.now (pairs_of rows.now)) visit.new) }
    ensures tally { OnOk result (tally_number tally.new ≡ capped_sum (tally_number tally.old)
        (length (rows_below high.now (pairs_of rows.now)))) }
    ensures stopped { IfErr result (λ fault. (handed : ℕ)
        × Stops V.takes visit.old (rows_below high.now (pairs_of rows.now)) fault visit.new handed
        × (tally_number tally.new ≡ capped_sum (tally_number tally.old) handed)) }
{
    let count = place_in(rows, high);
    hand_out(alloc, &rows[..count], visit, tally)?;
    Ok(count)
}

// Hands out these rows.
fn hand_out<V: Visit>(
    alloc: Global,
    rows: &[Row],
    visit: &mut V,
    tally: &mut Tally,
) -> Result<(), NoMemory>
    requires { All (λ row. V.admits visit.old row.0 row.1) (pairs_of rows.now) }
    ensures handed { OnOk result (Handed V.takes visit.old (pairs_of rows.now) visit.new) }
    ensures tally { OnOk result (tally_number tally.new
        ≡ capped_sum (tally_number tally.old) (length (pairs_of rows.now))) }
    ensures stopped { IfErr result (λ fault. (handed : ℕ)
        × Stops V.takes visit.old (pairs_of rows.now) fault visit.new handed
        × (tally_number tally.new ≡ capped_sum (tally_number tally.old) handed)) }
{
    for row in rows {
        tally.add(1);
        visit.row(alloc, row.key.as_slice(), row.bytes.as_slice())?;
    }
    Ok(())
}
