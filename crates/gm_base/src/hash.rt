// The hash of the shards.
ghost use Rattle.std.specs.Prelude.{◌≡◌};
ghost use Rattle.gm_base.specs.Hash.{fnv1a_of};

/// FNV-1a with 32 bits, after Fowler, Noll and Vo.
pub fn fnv1a(bytes: &[u8]) -> u32
    ensures { result ≡ fnv1a_of bytes.now }
{
    let mut hash = 2_166_136_261u32;
    for byte in bytes {
        hash = (hash ^ u32::from(*byte)).wrapping_mul(16_777_619);
    }
    hash
}
