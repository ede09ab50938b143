//! Reads cases, one a line, such as `holds name = 'bob'`, and prints each with its answer behind an
//! arrow. What is expected stands in `stdout`. A line that begins with `#` is printed as it is.
#![tactic(auto)]

mod bounds;
mod filters;
mod held;
mod lines;
mod words;

use crate::held::Held;
use crate::words::Halt;
use gm_base::NoMemory;
use std::alloc::Global;
use std::io;

fn main(rt: HostRuntime) -> io::Result<()> {
    let mut held = Held::new();
    for line in rt.lines(rt.alloc()) {
        let line = line?;
        let case = line.as_str();
        if case.starts_with('#') || case.is_empty() {
            println!(rt; "{case}")?;
        } else {
            match told(rt.alloc(), &mut held, case) {
                Ok(text) => println!(rt; "{case} -> {text}")?,
                Err(NoMemory) => println!(rt; "{case} -> no memory")?,
            }
        }
    }
    Ok(())
}

// The answer of a case, or that it is none.
fn told(alloc: Global, held: &mut Held, case: &str) -> Result<String, NoMemory> {
    match answer(alloc, held, case) {
        Ok(text) => Ok(text),
        Err(Halt::Form) => Ok(String::from_str(alloc, "no case")?),
        Err(Halt::NoMemory) => Err(NoMemory),
    }
}

// What the case's first word asks of the rest. `type` and `row` are held for the cases behind them.
fn answer(alloc: Global, held: &mut Held, case: &str) -> Result<String, Halt> {
    let (word, rest) = words::split(case, ' ');
    match word {
        "type" => held.hold_type(alloc, rest),
        "row" => held.hold_row(alloc, rest),
        "lines" => Ok(lines::answer(alloc, rest.parse::<u64>().unwrap_or(0))?),
        _ => filters::answer(alloc, held, word, rest),
    }
}
