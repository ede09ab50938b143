//! Reads cases, one a line, such as `row p:Point f1,POINT (0 0)`, and prints each with its answer
//! behind an arrow. What is expected stands in `stdout`. A line that begins with `#` is printed as
//! it is.
#![tactic(auto)]

mod features;
mod rows;
mod types;
mod words;

use gm_base::NoMemory;
use gm_types::{FeatureType, SpecFault, read_spec};
use std::alloc::Global;
use std::io;

fn main(rt: HostRuntime) -> io::Result<()> {
    for line in rt.lines(rt.alloc()) {
        let line = line?;
        let case = line.as_str();
        if case.starts_with('#') || case.is_empty() {
            println!(rt; "{case}")?;
        } else {
            match answer(rt.alloc(), case) {
                Ok(text) => println!(rt; "{case} -> {text}")?,
                Err(NoMemory) => println!(rt; "{case} -> no memory")?,
            }
        }
    }
    Ok(())
}

// A case is a word, a specification, and what the word asks of the type. Where it asks for the
// canonical text, all that follows is the specification.
fn answer(alloc: Global, case: &str) -> Result<String, NoMemory> {
    let (word, rest) = words::split(case);
    match word {
        "canonical" => of_spec(alloc, rest.as_bytes(), word, ""),
        "canonical-bytes" => of_spec(alloc, &words::bytes(alloc, rest)?, word, ""),
        "many" => of_spec(
            alloc,
            types::many(alloc, rest)?.as_str().as_bytes(),
            word,
            "",
        ),
        _ => {
            let (spec, rest) = words::split(rest);
            of_spec(alloc, spec.as_bytes(), word, rest)
        }
    }
}

#[tactic(auto, unfolding(gm_types::specs::Words::is_name))]
fn of_spec(alloc: Global, spec: &[u8], word: &str, rest: &str) -> Result<String, NoMemory> {
    match read_spec(alloc, b"t", 0, spec) {
        Ok(of) => of_type(alloc, &of, word, rest),
        Err(SpecFault::Spec) => words::text(alloc, "breaks a rule"),
        Err(SpecFault::TooMany) => words::text(alloc, "too many attributes"),
        Err(SpecFault::NoMemory) => Err(NoMemory),
    }
}

fn of_type(alloc: Global, of: &FeatureType, word: &str, rest: &str) -> Result<String, NoMemory> {
    match word {
        "settings" => types::settings(alloc, of),
        "indexes" => types::indexes(alloc, of),
        "named" => types::named(alloc, of, rest),
        "many" => types::lengths(alloc, of),
        "row" => rows::read(alloc, of, rest.as_bytes()),
        "row-bytes" => rows::read(alloc, of, &words::bytes(alloc, rest)?),
        "row-large" => rows::large(alloc, of, rest),
        "bytes" => features::bytes_of_row(alloc, of, rest.as_bytes()),
        "read" => features::read(alloc, of, &words::bytes(alloc, rest)?),
        _ => types::canonical(alloc, of),
    }
}
