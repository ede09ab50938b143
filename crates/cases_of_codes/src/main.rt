//! Reads cases, one a line, such as `runs 5-6 3-3`, and prints each with its answer behind an
//! arrow. What is expected stands in `stdout`. A line that begins with `#` is printed as it is.
#![tactic(auto)]

mod enumerated;
mod enumerations;
mod lists;
mod runs;
mod splits;
mod trees;
mod words;

use gm_base::NoMemory;
use std::alloc::Global;
use std::io;

fn main(rt: HostRuntime) -> io::Result<()> {
    for line in rt.lines(rt.alloc()) {
        let line = line?;
        let case = line.as_str();
        if case.starts_with('#') || case.is_empty() {
            println!(rt; "{case}")?;
        } else {
            match answer(rt.alloc(), case) {
                Ok(text) => println!(rt; "{case} -> {text}")?,
                Err(NoMemory) => println!(rt; "{case} -> no memory")?,
            }
        }
    }
    Ok(())
}

// What the case's first word asks of the rest.
fn answer(alloc: Global, case: &str) -> Result<String, NoMemory> {
    let (word, rest) = words::split(case);
    match word {
        "runs" | "has" | "many" | "joined" => runs::answer(alloc, word, rest),
        "node" => trees::answer(alloc, rest),
        "split" => splits::answer(alloc, rest),
        "enumerate" | "enumerate_many" => enumerations::answer(alloc, word, rest),
        _ => words::text(alloc, "no such case"),
    }
}
