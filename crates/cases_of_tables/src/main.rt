//! Reads cases, one a line, such as `identify f1`, and prints each with its answer behind an arrow.
//! What is expected stands in `stdout`. A line that begins with `#` is printed as it is.
#![tactic(auto)]

mod base;
mod block;
mod outside;
mod table;
mod words;

use gm_base::NoMemory;
use std::alloc::Global;
use std::io;

fn main(rt: HostRuntime) -> io::Result<()> {
    for line in rt.lines(rt.alloc()) {
        let line = line?;
        let case = line.as_str();
        if case.starts_with('#') || case.is_empty() {
            println!(rt; "{case}")?;
        } else {
            match answer(rt.alloc(), case) {
                Ok(text) => println!(rt; "{case} -> {text}")?,
                Err(NoMemory) => println!(rt; "{case} -> no memory")?,
            }
        }
    }
    Ok(())
}

// What the case's first word asks of the rest.
fn answer(alloc: Global, case: &str) -> Result<String, NoMemory> {
    let (word, rest) = words::split(case);
    match word {
        "identify" | "keep" | "grow" | "spans" | "count" => base::answer(alloc, word, rest),
        "reads" | "writes" | "flushes" | "folder" => outside::answer(alloc, word, rest),
        "block" | "block_of" => block::answer(alloc, word, rest),
        "find" | "scan" | "scan_spans" | "rows" => table::answer(alloc, word, rest),
        _ => words::text(alloc, "no such case"),
    }
}
