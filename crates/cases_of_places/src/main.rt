//! Reads cases, one a line, such as `read_fixed 1.5`, and prints each with its answer behind an
//! arrow. What is expected stands in `stdout`. A line that begins with `#` is printed as it is.
#![tactic(auto)]

mod curves;
mod draws;
mod geometries;
mod instants;
mod numbers;
mod prepared;
mod shapes;
mod words;

use gm_base::NoMemory;
use std::alloc::Global;
use std::io;

fn main(rt: HostRuntime) -> io::Result<()> {
    for line in rt.lines(rt.alloc()) {
        let line = line?;
        let case = line.as_str();
        if case.starts_with('#') || case.is_empty() {
            println!(rt; "{case}")?;
        } else {
            match answer(rt.alloc(), case) {
                Ok(text) => println!(rt; "{case} -> {text}")?,
                Err(NoMemory) => println!(rt; "{case} -> no memory")?,
            }
        }
    }
    Ok(())
}

// What the case's first word asks of the rest.
fn answer(alloc: Global, case: &str) -> Result<String, NoMemory> {
    let (word, rest) = words::split(case);
    match word {
        "read_fixed" | "print_fixed" | "append_fixed" => numbers::answer(alloc, word, rest),
        "check_points" | "check_line" | "check_ring" | "bounds_line" | "read_wkt" | "read_points" =>
            geometries::answer(alloc, word, rest),
        "instant"
        | "read_instant"
        | "print_instant"
        | "bin"
        | "bin_span"
        | "last_bin"
        | "span_of" => instants::answer(alloc, word, rest),
        "normal" | "z2" | "z3" | "xz2" | "xz3" => curves::answer(alloc, word, rest),
        "segments_meet" | "in_rings" | "intersects" | "meets_box" => shapes::answer(
            alloc, word, rest,
        ),
        "prepared"
        | "prepared_box"
        | "prepared_within"
        | "bands"
        | "edges_in"
        | "coast"
        | "drawn"
        | "drawn_within" => { prepared::answer(alloc, word, rest) }
        _ => words::text(alloc, "no such case"),
    }
}
