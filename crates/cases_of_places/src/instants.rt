// Cases of instants and of bins.
use crate::words;
use gm_base::NoMemory;
use gm_calendar::{
    Instant, Period, bin_of, bin_span, last_bin, print_instant, read_instant, span_of,
};
use std::alloc::Global;

pub fn answer(alloc: Global, word: &str, rest: &str) -> Result<String, NoMemory> {
    match word {
        "instant" | "print_instant" => print(alloc, rest),
        "read_instant" => read(alloc, rest),
        _ => answer_of_period(alloc, word, rest),
    }
}

// The instant at that millisecond, printed.
fn print(alloc: Global, ms: &str) -> Result<String, NoMemory> {
    let Ok(ms) = ms.parse::<i64>() else {
        return words::text(alloc, "no milliseconds");
    };
    match Instant::of(ms) {
        Some(at) => words::text(alloc, print_instant(alloc, at)?.as_str()),
        None => words::text(alloc, "none"),
    }
}

fn read(alloc: Global, text: &str) -> Result<String, NoMemory> {
    match read_instant(text.as_bytes()) {
        Some(at) => Ok(format!(in alloc; "{}", at.ms())?),
        None => words::text(alloc, "none"),
    }
}

fn period_named(name: &str) -> Option<Period> {
    match name {
        "day" => Some(Period::Day),
        "week" => Some(Period::Week),
        "month" => Some(Period::Month),
        "year" => Some(Period::Year),
        _ => None,
    }
}

fn answer_of_period(alloc: Global, word: &str, rest: &str) -> Result<String, NoMemory> {
    let (name, rest) = words::split(rest);
    let Some(period) = period_named(name) else {
        return words::text(alloc, "no such period");
    };
    match word {
        "bin" => bin(alloc, period, rest),
        "bin_span" => span(alloc, period, rest),
        "last_bin" => Ok(format!(in alloc; "{}", last_bin(period))?),
        _ => Ok(format!(in alloc; "{}", span_of(period))?),
    }
}

// The number and the offset of the bin of an instant.
fn bin(alloc: Global, period: Period, text: &str) -> Result<String, NoMemory> {
    let Some(at) = read_instant(text.as_bytes()) else {
        return words::text(alloc, "no instant");
    };
    match bin_of(period, at) {
        Some(bin) => Ok(format!(in alloc; "{} {}", bin.number, bin.offset)?),
        None => words::text(alloc, "none"),
    }
}

fn span(alloc: Global, period: Period, number: &str) -> Result<String, NoMemory> {
    match number.parse::<u16>() {
        Ok(number) if number <= last_bin(period) => {
            let (first, last) = bin_span(period, number);
            Ok(format!(in alloc; "{first} {last}")?)
        }
        _ => words::text(alloc, "no such bin"),
    }
}
