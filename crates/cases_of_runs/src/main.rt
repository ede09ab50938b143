//! Reads cases of whole runs, and prints what each run wrote and how it ended. A case begins with a
//! line `=== NAME` and behind the name what `plan.rt` reads and the words of its run; then come the
//! lines of its script. Behind a line `--- again` stands the script of a further run over the same
//! store. What is expected stands in `stdout`.
#![tactic(auto)]

mod plan;
mod runs;
mod script;

use gm_base::NoMemory;
use plan::Plan;
use script::Scripts;
use std::io;

fn main(rt: HostRuntime) -> io::Result<()> {
    let mut case = None;
    for line in rt.lines(rt.alloc()) {
        let line = line?;
        let text = line.as_str();
        if let Some(header) = text.strip_prefix("=== ") {
            show(&rt, case)?;
            println!(rt; "{text}")?;
            let Ok(scripts) = Scripts::new(rt.alloc(), header) else {
                return println!(rt; "no memory");
            };
            case = Some((Plan::of(header), scripts));
        } else if let Some((_, scripts)) = &mut case {
            if let Err(NoMemory) = scripts.add(rt.alloc(), text) {
                println!(rt; "no memory")?;
            }
        }
    }
    show(&rt, case)
}

// Runs a case, and prints what came of it.
fn show(rt: &HostRuntime, case: Option<(Plan, Scripts)>) -> io::Result<()> {
    let Some((plan, scripts)) = case else {
        return Ok(());
    };
    match runs::told(rt.alloc(), plan, scripts) {
        Ok(told) => match str::from_utf8(&told) {
            Ok(text) => rt.print(text),
            Err(_) => println!(rt; "no text"),
        },
        Err(NoMemory) => println!(rt; "no memory"),
    }
}
