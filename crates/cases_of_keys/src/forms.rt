// Cases of lexicoded values, and of the ends of ranges.
ghost use Rattle.std.specs.Prelude.{◌<◌, All, IsTrue};

use crate::words;
use gm_base::{Bytes, NoMemory, Text};
use gm_calendar::Instant;
use gm_lexi::{
    after, get_bool, get_date, get_int, get_long, get_text, put_bool, put_date, put_int, put_long,
    put_text,
};
use std::alloc::Global;

/// The form of a value, as `form int -1`; where the text spells none, of no bytes.
pub fn put(alloc: Global, rest: &str) -> Result<String, NoMemory> {
    let (kind, text) = words::split(rest);
    let mut form = Bytes::new(alloc);
    match kind {
        "int" => put_int(alloc, &mut form, text.parse::<i32>().unwrap_or(0))?,
        "long" => put_long(alloc, &mut form, text.parse::<i64>().unwrap_or(0))?,
        "bool" => put_bool(alloc, &mut form, text == "true")?,
        "date" => put_instant(alloc, &mut form, text)?,
        _ => put_plain(alloc, &mut form, text)?,
    }
    words::digits(alloc, form.as_slice())
}

fn put_instant(alloc: Global, form: &mut Bytes, text: &str) -> Result<(), NoMemory> {
    match Instant::of(text.parse::<i64>().unwrap_or(0)) {
        Some(at) => put_date(alloc, form, at),
        None => Ok(()),
    }
}

fn put_plain(alloc: Global, form: &mut Bytes, text: &str) -> Result<(), NoMemory> {
    if has_no_zero(text.as_bytes()) {
        return put_text(alloc, form, &Text::from_str(alloc, text)?);
    }
    Ok(())
}

fn has_no_zero(bytes: &[u8]) -> bool
    ensures { IsTrue result → All (λ byte. 0 < byte) bytes.now }
{
    bytes.iter().all(|byte| *byte > 0)
}

/// The value with whose form bytes begin and the length of the form, as `value int 80000000`; of a
/// text the length alone.
pub fn get(alloc: Global, rest: &str) -> Result<String, NoMemory> {
    let (kind, digits) = words::split(rest);
    let form = words::bytes(alloc, digits)?;
    let form = form.as_slice();
    match kind {
        "int" => Ok(format!(in alloc; "{:?}", get_int(form))?),
        "long" => Ok(format!(in alloc; "{:?}", get_long(form))?),
        "bool" => Ok(format!(in alloc; "{:?}", get_bool(form))?),
        "text" => Ok(format!(in alloc; "{:?}", get_text(form))?),
        _ => match get_date(form) {
            Some((at, length)) => Ok(format!(in alloc; "Some(({}, {length}))", at.ms())?),
            None => words::text(alloc, "None"),
        },
    }
}

/// The end of those that begin with these bytes.
pub fn end(alloc: Global, digits: &str) -> Result<String, NoMemory> {
    match after(alloc, &words::bytes(alloc, digits)?)? {
        Some(end) => words::digits(alloc, end.as_slice()),
        None => words::text(alloc, "none"),
    }
}
