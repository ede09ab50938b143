// Spreading the bits of a number at even distances, and gathering them: by shifts and masks that
// halve or double the blocks of bits that stand together.
ghost use Rattle.std.specs.Prelude.{◌≡◌, ◌<◌, ◌^◌, ◌⊎◌};
ghost use Rattle.gm_curve.specs.Spreading.{spread_of, gather_of};

// Bit j goes to place 2*j.
pub(crate) fn spread_by_two(x: u32) -> u64
    ensures { result ≡ spread_of 2 x }
{
    let x = u64::from(x);
    let x = (x | x << 16) & 0x0000_FFFF_0000_FFFF;
    let x = (x | x << 8) & 0x00FF_00FF_00FF_00FF;
    let x = (x | x << 4) & 0x0F0F_0F0F_0F0F_0F0F;
    let x = (x | x << 2) & 0x3333_3333_3333_3333;
    (x | x << 1) & 0x5555_5555_5555_5555
}

// Bit j goes to place 3*j.
pub(crate) fn spread_by_three(x: u32) -> u64
    requires { x < 2 ^ 21 }
    ensures { result ≡ spread_of 3 x }
{
    let x = u64::from(x);
    let x = (x | x << 32) & 0xFFFF_0000_0000_FFFF;
    let x = (x | x << 16) & 0x00FF_0000_FF00_00FF;
    let x = (x | x << 8) & 0xF00F_00F0_0F00_F00F;
    let x = (x | x << 4) & 0x30C3_0C30_C30C_30C3;
    (x | x << 2) & 0x9249_2492_4924_9249
}

// The bits at the multiples of two or three.
pub(crate) fn gather(dimensions: usize, code: u64) -> u32
    requires dimensions { (dimensions ≡ 2) ⊎ (dimensions ≡ 3) }
    requires below { code < 2 ^ 63 }
    ensures { result ≡ gather_of dimensions code }
{
    if dimensions == 2 {
        gather_by_two(code)
    } else {
        gather_by_three(code)
    }
}

// The bits at even places.
fn gather_by_two(code: u64) -> u32
    ensures { result ≡ gather_of 2 code }
{
    let x = code & 0x5555_5555_5555_5555;
    let x = (x | x >> 1) & 0x3333_3333_3333_3333;
    let x = (x | x >> 2) & 0x0F0F_0F0F_0F0F_0F0F;
    let x = (x | x >> 4) & 0x00FF_00FF_00FF_00FF;
    let x = (x | x >> 8) & 0x0000_FFFF_0000_FFFF;
    ((x | x >> 16) & 0xFFFF_FFFF) as u32
}

// The bits at the multiples of three.
fn gather_by_three(code: u64) -> u32
    requires { code < 2 ^ 63 }
    ensures { result ≡ gather_of 3 code }
{
    let x = code & 0x9249_2492_4924_9249;
    let x = (x | x >> 2) & 0x30C3_0C30_C30C_30C3;
    let x = (x | x >> 4) & 0xF00F_00F0_0F00_F00F;
    let x = (x | x >> 8) & 0x00FF_0000_FF00_00FF;
    let x = (x | x >> 16) & 0xFFFF_0000_0000_FFFF;
    ((x | x >> 32) & 0xFFFF_FFFF) as u32
}
