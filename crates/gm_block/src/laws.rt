// Laws of the definitions, for the crates above.
ghost use Rattle.std.specs.Prelude.{◌≡◌, List};
ghost use Rattle.gm_block.specs.Block.{IsBlock, block_bytes};
ghost use Rattle.gm_table.specs.declared.row.Row.{Row};

/// Two blocks with the same bytes have the same rows.
pub fn bytes_tell_blocks_apart()
    ensures { (one other : List Row) → IsBlock one → IsBlock other
        → block_bytes one ≡ block_bytes other → one ≡ other }
{}
