// What stands at a key in blocks.
ghost use Rattle.std.specs.Prelude.{◌≡◌};
ghost use Rattle.std.specs.List.{AllByRecursion};
ghost use Rattle.std.specs.Option.{option_copied};
ghost use Rattle.gm_table.specs.Blocks.{IsBlock, lists_of, rows_of};
ghost use Rattle.gm_table.specs.Sorted.{IsRising, at_key};

use crate::blocks::block::Block;
use crate::blocks::cursor::row_at;
use crate::blocks::search::place_of;
use crate::end::End;
use gm_base::Bytes;

/// The bytes at a key, if there is a row of it.
pub(crate) fn bytes_at<'a>(blocks: &'a [Block], key: &Bytes) -> Option<&'a [u8]>
    requires each { AllByRecursion IsBlock blocks.now }
    requires rising { IsRising (rows_of (lists_of blocks.now)) }
    ensures { option_copied result ≡ at_key key.now (rows_of (lists_of blocks.now)) }
{
    let place = place_of(blocks, &End::of_key(key));
    match row_at(blocks, place) {
        None => None,
        Some(row) => {
            if *key == row.key {
                return Some(row.bytes.as_slice());
            }
            None
        }
    }
}
