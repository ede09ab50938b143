//! Reads cases, one a line, such as `key 0 p:Point z2 f1,POINT (0 0)`, and prints each with its
//! answer behind an arrow. What is expected stands in `stdout`. A line that begins with `#` is
//! printed as it is.
#![tactic(auto)]

mod forms;
mod keys;
mod words;

use gm_base::NoMemory;
use std::alloc::Global;
use std::io;

fn main(rt: HostRuntime) -> io::Result<()> {
    for line in rt.lines(rt.alloc()) {
        let line = line?;
        let case = line.as_str();
        if case.starts_with('#') || case.is_empty() {
            println!(rt; "{case}")?;
        } else {
            match answer(rt.alloc(), case) {
                Ok(text) => println!(rt; "{case} -> {text}")?,
                Err(NoMemory) => println!(rt; "{case} -> no memory")?,
            }
        }
    }
    Ok(())
}

// What the case's first word asks of the rest.
fn answer(alloc: Global, case: &str) -> Result<String, NoMemory> {
    let (word, rest) = words::split(case);
    match word {
        "form" => forms::put(alloc, rest),
        "value" => forms::get(alloc, rest),
        "after" => forms::end(alloc, rest),
        _ => keys::answer(alloc, word, rest),
    }
}
