// Numbers in lines, read and printed.
ghost use Rattle.std.specs.Prelude.{◌≡◌, ◌++◌, Some, true, decimal, option_map, OnOk};
ghost use Rattle.std.specs.Char.{is_ascii_digit};
ghost use Rattle.std.specs.List.{list_all};
ghost use Rattle.std.specs.Str.Parse.{digits_value};
ghost use Rattle.std.specs.String.{string_bytes};
ghost use Rattle.gm_script.specs.Ask as spec;

use gm_base::NoMemory;
use itoa::Buffer;

/// The target where none is given.
const USUAL_TARGET: u64 = 2_000;

fn are_digits(bytes: &[u8]) -> bool
    ensures { result ≡ list_all is_ascii_digit bytes.now }
{
    bytes.iter().all(|byte| byte.is_ascii_digit())
}

fn is_target(digits: &[u8]) -> bool
    ensures { result ≡ spec.is_target digits.now }
{
    !digits.is_empty() && digits.len() <= 10 && are_digits(digits)
}

// The number that one to ten digits write.
fn number_of(digits: &str) -> Option<u64>
    requires { spec.is_target digits.now ≡ true }
    ensures { result ≡ Some (digits_value 10 digits.now) }
{
    match digits.parse::<u64>() {
        Ok(number) => Some(number),
        Err(_) => None,
    }
}

fn target_number(digits: &[u8]) -> Option<u64>
    ensures { result ≡ spec.target_number digits.now }
{
    if !is_target(digits) {
        return None;
    }
    match str::from_utf8(digits) {
        Ok(text) => number_of(text),
        Err(_) => None,
    }
}

/// The number of a target: one to ten digits, or the usual one where none is given.
pub(crate) fn target_of(digits: Option<&[u8]>) -> Option<u64>
    ensures { result ≡ spec.target_of (option_map (λ digits. digits.now) digits.entry) }
{
    match digits {
        Some(digits) => target_number(digits),
        None => Some(USUAL_TARGET),
    }
}

/// Appends the decimal digits of a number.
pub(crate) fn append_number(text: &mut String, number: u64) -> Result<(), NoMemory>
    ensures { OnOk result (string_bytes text.new ≡ string_bytes text.old ++ decimal number) }
{
    text.push_str(Buffer::new().format(number))?;
    Ok(())
}
