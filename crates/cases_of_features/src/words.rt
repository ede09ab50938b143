// The words of a case.
ghost use Rattle.std.specs.Prelude.{◌<◌};

use gm_base::NoMemory;
use std::alloc::Global;

/// The first word, and what stands behind the blank that follows it.
pub fn split(case: &str) -> (&str, &str) {
    match case.split_once(' ') {
        Some(parts) => parts,
        None => (case, ""),
    }
}

/// A text of one's own.
pub fn text(alloc: Global, text: &str) -> Result<String, NoMemory> {
    Ok(String::from_str(alloc, text)?)
}

/// The bytes that pairs of hexadecimal digits write; a byte that is no digit counts as 0.
pub fn bytes(alloc: Global, digits: &str) -> Result<Vec<u8>, NoMemory> {
    let mut bytes = Vec::new(alloc);
    for pair in digits.as_bytes().chunks(2) {
        if let [high, low] = pair {
            bytes.push(digit(*high) * 16 + digit(*low))?;
        }
    }
    Ok(bytes)
}

fn digit(byte: u8) -> u8
    ensures { result < 16 }
{
    match byte {
        b'0'..=b'9' => byte - b'0',
        b'a'..=b'f' => byte - b'a' + 10,
        _ => 0,
    }
}

/// Bytes as pairs of hexadecimal digits.
pub fn digits(alloc: Global, bytes: &[u8]) -> Result<String, NoMemory> {
    let mut text = String::new(alloc);
    for byte in bytes {
        let byte = *byte;
        write!(text, "{byte:02x}")?;
    }
    Ok(text)
}
