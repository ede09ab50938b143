// Cases of sets of numbers.
use crate::words;
use gm_base::NoMemory;
use gm_runs::Runs;
use std::alloc::Global;

pub fn answer(alloc: Global, word: &str, rest: &str) -> Result<String, NoMemory> {
    match word {
        "runs" => runs(alloc, rest),
        "has" => has(alloc, rest),
        "many" => many(alloc, rest),
        _ => joined(alloc, rest),
    }
}

// The set of these spans, added in turn.
fn set(alloc: Global, spans: &str) -> Result<Runs, NoMemory> {
    let mut runs = Runs::new(alloc);
    for (low, high) in &words::spans(alloc, spans)? {
        if low <= high {
            runs.insert(alloc, *low, *high)?;
        }
    }
    Ok(runs)
}

fn runs(alloc: Global, spans: &str) -> Result<String, NoMemory> {
    print(alloc, &set(alloc, spans)?)
}

/// How many runs there are, and each of them; of more than eight the first and the last.
pub fn print(alloc: Global, runs: &Runs) -> Result<String, NoMemory> {
    let count = runs.count();
    let mut text = format!(in alloc; "{count} runs:")?;
    if count <= 8 {
        for i in 0..count {
            let (low, high) = runs.at(i);
            let run = format!(in alloc; " {low}-{high}")?;
            text.push_str(run.as_str())?;
        }
        return Ok(text);
    }
    let (low, high) = runs.at(0);
    let (from, to) = runs.at(count - 1);
    Ok(format!(in alloc; "{count} runs from {low}-{high} to {from}-{to}")?)
}

// Whether the set of the spans behind it has a number.
fn has(alloc: Global, rest: &str) -> Result<String, NoMemory> {
    let (number, spans) = words::split(rest);
    let runs = set(alloc, spans)?;
    match number.parse::<u64>() {
        Ok(number) => Ok(format!(in alloc; "{}", runs.contains(number))?),
        Err(_) => words::text(alloc, "no number"),
    }
}

// So many runs of two numbers each, with one left out between.
fn apart(alloc: Global, count: u64) -> Result<Runs, NoMemory> {
    let mut runs = Runs::new(alloc);
    for i in 0..count {
        let low = i.saturating_mul(3);
        runs.insert(alloc, low, low.saturating_add(1))?;
    }
    Ok(runs)
}

fn many(alloc: Global, count: &str) -> Result<String, NoMemory> {
    match count.parse::<u64>() {
        Ok(count) => print(alloc, &apart(alloc, count)?),
        Err(_) => words::text(alloc, "no number"),
    }
}

// The same, and the numbers that were left out besides, the last of them first.
fn joined(alloc: Global, count: &str) -> Result<String, NoMemory> {
    match count.parse::<u64>() {
        Ok(count) => {
            let mut runs = apart(alloc, count)?;
            for i in 0..count {
                let number = (count - i).saturating_mul(3) - 1;
                runs.insert(alloc, number, number)?;
            }
            print(alloc, &runs)
        }
        Err(_) => words::text(alloc, "no number"),
    }
}
