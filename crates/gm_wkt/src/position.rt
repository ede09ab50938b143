// Blanks, numbers and positions, which take no memory.
ghost use Rattle.std.specs.Prelude.{◌≡◌, ◌≤◌, [], length, option_map, MatchOption};
ghost use Rattle.std.specs.List.{prefix_len};
ghost use Rattle.gm_geom.specs.Number as number;
ghost use Rattle.gm_base.specs.Ascii as ascii;
ghost use Rattle.gm_wkt.specs.Grammar as grammar;
ghost use Rattle.gm_wkt.specs.Reader as spec;

use gm_geom::{NumberFault, Point, read_fixed};

fn is_blank(byte: u8) -> bool
    ensures { result ≡ ascii.is_blank byte }
{
    byte == b' ' || byte == b'\t'
}

fn is_number_byte(byte: u8) -> bool
    ensures { result ≡ number.is_number_byte byte }
{
    match byte {
        b'+' | b'-' | b'.' | b'e' | b'E' => true,
        _ => byte.is_ascii_digit(),
    }
}

/// What follows the blanks at the front.
pub fn skip_blanks(bytes: &[u8]) -> &[u8]
    ensures { result.now ≡ spec.skip_blanks bytes.now }
{
    &bytes[blank_count(bytes)..]
}

fn blank_count(bytes: &[u8]) -> usize
    ensures value { result ≡ prefix_len ascii.is_blank bytes.now }
    ensures within { result ≤ length bytes.now }
{
    'bytes: for (count, byte) in bytes.iter().enumerate() {
        if !is_blank(*byte) {
            return count;
        }
    }
    bytes.len()
}

fn number_run(bytes: &[u8]) -> usize
    ensures value { result ≡ spec.number_run bytes.now }
    ensures within { result ≤ length bytes.now }
{
    'bytes: for (count, byte) in bytes.iter().enumerate() {
        if !is_number_byte(*byte) {
            return count;
        }
    }
    bytes.len()
}

/// What follows a byte, where it stands first.
pub fn behind(byte: u8, bytes: &[u8]) -> Option<&[u8]>
    ensures { option_map (λ rest. rest.now) result ≡ spec.behind byte bytes.now }
{
    match bytes {
        [first, rest @ ..] if *first == byte => Some(rest),
        _ => None,
    }
}

fn coordinate_of(token: &[u8]) -> Option<i32>
    ensures { result ≡ grammar.coordinate_of token.now }
{
    match read_fixed(token) {
        Ok(value) => Some(value),
        Err(NumberFault::Form) => None,
        Err(NumberFault::Big) => Some(i32::MAX),
    }
}

// The number at the front, and what follows it.
fn number_at(bytes: &[u8]) -> Option<(i32, &[u8])>
    ensures { option_map (λ n. (n.0, n.1.now)) result ≡ spec.number_at bytes.now }
{
    let (token, rest) = bytes.split_at(number_run(bytes));
    let value = coordinate_of(token)?;
    Some((value, rest))
}

fn begins_blank(bytes: &[u8]) -> bool
    ensures { result ≡ spec.begins_blank bytes.now }
{
    match bytes {
        [first, ..] => is_blank(*first),
        [] => false,
    }
}

fn second_at(x: i32, bytes: &[u8]) -> Option<(Point, &[u8])>
    ensures { option_map (λ n. (n.0, n.1.now)) result ≡ spec.second_at x bytes.now }
{
    if !begins_blank(bytes) {
        return None;
    }
    let (y, rest) = number_at(skip_blanks(bytes))?;
    Some((Point { x, y }, rest))
}

/// Two numbers with blanks between them, and what follows.
pub fn position_at(bytes: &[u8]) -> Option<(Point, &[u8])>
    ensures { option_map (λ n. (n.0, n.1.now)) result ≡ spec.position_at bytes.now }
{
    let (x, rest) = number_at(bytes)?;
    second_at(x, rest)
}

/// A position in brackets, and what follows.
pub fn lone_at(bytes: &[u8]) -> Option<(Point, &[u8])>
    ensures { option_map (λ n. (n.0, n.1.now)) result ≡ spec.lone_at bytes.now }
{
    let inside = behind(b'(', bytes)?;
    lone_inside(inside)
}

fn lone_inside(bytes: &[u8]) -> Option<(Point, &[u8])>
    ensures { option_map (λ n. (n.0, n.1.now)) result ≡ spec.lone_inside bytes.now }
{
    let (point, rest) = position_at(skip_blanks(bytes))?;
    closed_at(point, rest)
}

fn closed_at(point: Point, bytes: &[u8]) -> Option<(Point, &[u8])>
    ensures { option_map (λ n. (n.0, n.1.now)) result ≡ spec.closed_at point bytes.now }
{
    let rest = behind(b')', skip_blanks(bytes))?;
    Some((point, rest))
}

fn opens(bytes: &[u8]) -> bool
    ensures { result ≡ spec.opens bytes.now }
{
    matches!(bytes, [b'(', ..])
}

/// A position whose brackets may be left out where the notation is loose, and what follows.
pub fn point_at(loose: bool, bytes: &[u8]) -> Option<(Point, &[u8])>
    ensures { option_map (λ n. (n.0, n.1.now)) result ≡ spec.point_at loose bytes.now }
{
    if loose && opens(bytes) {
        lone_at(bytes)
    } else {
        position_at(bytes)
    }
}
