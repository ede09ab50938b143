// Cells along one dimension.
ghost use Rattle.std.specs.Prelude.{◌≡◌, ◌<◌, ◌≤◌, ◌+◌, ◌-◌, ◌*◌, ◌^◌};
ghost use Rattle.gm_trees.specs.Xz.{xz_end};

/// Where the cell of this index begins, so many levels above the deepest.
pub(crate) fn low_end(index: u32, level: u32, below: u32) -> u32
    requires index { index < 2 ^ level }
    requires few { level + below ≤ 31 }
    ensures { result ≡ index * 2 ^ below }
{
    index * (1u32 << below)
}

/// Where it ends.
pub(crate) fn high_end(index: u32, level: u32, below: u32) -> u32
    requires index { index < 2 ^ level }
    requires few { level + below ≤ 31 }
    ensures { result ≡ index * 2 ^ below + (2 ^ below - 1) }
{
    index * (1u32 << below) + ((1u32 << below) - 1)
}

/// Where the cell of this index ends, enlarged to twice its side and cut at the end of the space.
pub(crate) fn enlarged_end(index: u32, level: u32, below: u32, whole: u32) -> u32
    requires index { index < 2 ^ level }
    requires whole { level + below ≡ whole }
    requires few { whole ≤ 16 }
    ensures { result ≡ xz_end (2 ^ whole) (2 ^ below) index }
{
    ((1u32 << whole) - 1).min((index + 2) * (1u32 << below) - 1)
}
