// Numbers in decimal digits, with no sign and no leading zero.
ghost use Rattle.std.specs.Prelude.{◌≡◌};
ghost use Rattle.std.specs.Char.{is_ascii_digit};
ghost use Rattle.std.specs.List.{list_all};
ghost use Rattle.gm_program.specs.Words.{is_padded_text, is_plain_number, number_between};

// The number that the text writes, if it lies between these two.
pub(crate) fn number_in(text: &str, least: u64, most: u64) -> Option<u64>
    ensures { result ≡ number_between least most text.now }
{
    if !is_plain(text.as_bytes()) {
        return None;
    }
    match text.parse::<u64>() {
        Ok(number) => {
            if (least..=most).contains(&number) {
                Some(number)
            } else {
                None
            }
        }
        Err(_) => None,
    }
}

// One digit or more, of which the first of several is not 0.
fn is_plain(bytes: &[u8]) -> bool
    ensures { result ≡ is_plain_number bytes.now }
{
    if bytes.is_empty() {
        return false;
    }
    let digits = are_digits(bytes);
    let padded = is_padded(bytes);
    digits && !padded
}

fn are_digits(bytes: &[u8]) -> bool
    ensures { result ≡ list_all is_ascii_digit bytes.now }
{
    bytes.iter().all(|byte| byte.is_ascii_digit())
}

// A 0 stands before further digits.
fn is_padded(bytes: &[u8]) -> bool
    ensures { result ≡ is_padded_text bytes.now }
{
    match bytes {
        [first, _, ..] => *first == b'0',
        _ => false,
    }
}
