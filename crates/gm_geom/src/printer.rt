// Fixed-point numbers to text.
ghost use Rattle.std.specs.Prelude.{◌≡◌, ◌<◌, ◌^◌, ◌++◌, ◌+◌, ◌/◌, [], ◌∷◌, IfOk, OnOk};
ghost use Rattle.std.specs.String.{string_bytes};
ghost use Rattle.std.specs.Fmt.{decimal};
ghost use Rattle.gm_base.specs.Ascii.{digit_zero};
ghost use Rattle.gm_base.specs.Text.{BeginsWith};
ghost use Rattle.gm_geom.specs.Number.{fixed_text, fixed_of, fraction_text};
ghost use Rattle.gm_geom.specs.Number.{minus_text, places_of};

use gm_base::{NoMemory, Text};
use std::alloc::Global;

/// The units of a degree.
const DEGREE: u32 = 10_000_000;

/// The one spelling of a fixed number: a minus where it is negative, the whole degrees, and, where
/// the rest is not 0, a point and the seven digits without the zeros at their end.
pub fn print_fixed(alloc: Global, value: i32) -> Result<Text, NoMemory>
    ensures text { IfOk result (λ text. text ≡ fixed_text value) }
    // Reading it gives the number again.
    ensures reads { IfOk result (λ text. fixed_of text ≡ Ok value) }
{
    let mut out = String::new(alloc);
    append_fixed(&mut out, value)?;
    Ok(Text::from_string(out))
}

/// Appends the spelling of a fixed number. After `NoMemory` the text may end with a part of it.
pub fn append_fixed(out: &mut String, value: i32) -> Result<(), NoMemory>
    ensures text { OnOk result (string_bytes out.new ≡ string_bytes out.old ++ fixed_text value) }
    ensures kept { BeginsWith (string_bytes out.new) (string_bytes out.old) }
{
    let magnitude = value.unsigned_abs();
    append_minus(out, value)?;
    append_whole(out, magnitude / DEGREE)?;
    append_fraction(out, magnitude % DEGREE)
}

fn append_minus(out: &mut String, value: i32) -> Result<(), NoMemory>
    ensures text { OnOk result (string_bytes out.new ≡ string_bytes out.old ++ minus_text value) }
    ensures kept { BeginsWith (string_bytes out.new) (string_bytes out.old) }
{
    if value < 0 {
        out.push_str("-")?;
    }
    Ok(())
}

// The digits of a whole number.
fn append_whole(out: &mut String, whole: u32) -> Result<(), NoMemory>
    ensures text { OnOk result (string_bytes out.new ≡ string_bytes out.old ++ decimal whole) }
    ensures kept { BeginsWith (string_bytes out.new) (string_bytes out.old) }
{
    if whole < 10 {
        return append_digit(out, whole);
    }
    append_whole(out, whole / 10)?;
    append_digit(out, whole % 10)
}

// The point and the places of a rest below a degree, where it is not 0.
fn append_fraction(out: &mut String, rest: u32) -> Result<(), NoMemory>
    requires { rest < 10 ^ 7 }
    ensures text { OnOk result (string_bytes out.new ≡ string_bytes out.old ++ fraction_text rest) }
    ensures kept { BeginsWith (string_bytes out.new) (string_bytes out.old) }
{
    if rest == 0 {
        return Ok(());
    }
    out.push_str(".")?;
    append_places(out, rest)
}

fn append_places(out: &mut String, mut rest: u32) -> Result<(), NoMemory>
    requires { rest < 10 ^ 7 }
    ensures text { OnOk result (string_bytes out.new ≡ string_bytes out.old ++ places_of 7 rest) }
    ensures kept { BeginsWith (string_bytes out.new) (string_bytes out.old) }
{
    let mut places = 7;
    'places: while rest > 0 {
        places -= 1;
        let unit = 10u32.pow(places);
        append_digit(out, rest / unit)?;
        rest %= unit;
    }
    Ok(())
}

fn append_digit(out: &mut String, digit: u32) -> Result<(), NoMemory>
    requires { digit < 10 }
    ensures text { OnOk result (string_bytes out.new
        ≡ string_bytes out.old ++ (digit_zero + digit) ∷ []) }
    ensures kept { BeginsWith (string_bytes out.new) (string_bytes out.old) }
{
    out.push(char::from(b'0' + digit as u8))?;
    Ok(())
}
