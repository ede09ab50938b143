// How a source in memory gives its bytes.
ghost use Rattle.std.specs.Prelude.{◌≡◌, ◌≤◌, ◌<◌, [], length, min, take};

/// Copies the first bytes, at most a piece of them and at most as many as there is room for, and
/// says how many.
pub(crate) fn give(bytes: &[u8], piece: usize, into: &mut [u8]) -> usize
    requires some { 0 < piece }
    requires room { 0 < length into.old }
    ensures size { result ≡ min piece (min (length into.old) (length bytes.now)) }
    ensures fits { result ≤ length into.old }
    ensures inside { result ≤ length bytes.now }
    ensures given { take result into.new ≡ take result bytes.now }
    ensures end { result ≡ 0 → bytes.now ≡ [] }
{
    let n = piece.min(into.len()).min(bytes.len());
    into[..n].copy_from_slice(&bytes[..n]);
    n
}
