// Cases of fixed-point numbers.
use crate::words;
use gm_base::NoMemory;
use gm_geom::{append_fixed, print_fixed, read_fixed};
use std::alloc::Global;

pub fn answer(alloc: Global, word: &str, rest: &str) -> Result<String, NoMemory> {
    match word {
        "read_fixed" => read(alloc, rest),
        "print_fixed" => print(alloc, rest),
        _ => append(alloc, rest),
    }
}

fn read(alloc: Global, text: &str) -> Result<String, NoMemory> {
    let read = read_fixed(text.as_bytes());
    Ok(format!(in alloc; "{read:?}")?)
}

fn print(alloc: Global, value: &str) -> Result<String, NoMemory> {
    match value.parse::<i32>() {
        Ok(value) => words::text(alloc, print_fixed(alloc, value)?.as_str()),
        Err(_) => words::text(alloc, "no value"),
    }
}

// The number behind a text that is there.
fn append(alloc: Global, value: &str) -> Result<String, NoMemory> {
    let mut text = String::from_str(alloc, "x = ")?;
    match value.parse::<i32>() {
        Ok(value) => append_fixed(&mut text, value)?,
        Err(_) => {}
    }
    Ok(text)
}
