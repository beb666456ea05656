//! The program's words over a disk, a source and a sink in memory, for tries in which one growth of memory is refused: it prints what
//! came of them, and which growths the disk and the sink were refused.
#![tactic(auto)]

mod outcome;
mod runs;
mod worked;

use df_program::Ends;
use outcome::{Outcome, carry_out};
use std::env;
use std::io::{self, Write};
use std::test::Fail;

// The words after the program's name.
fn words(rt: &HostRuntime) -> Result<Vec<String>, Fail> {
    let words = env::args(rt)?.skip(1).collect(rt.alloc())?;
    Ok(words)
}

// Prints the facts, a line each, and then what the words printed.
fn print(rt: &HostRuntime, outcome: &Outcome) -> io::Result<()> {
    println!(rt; "status {}", outcome.status.number())?;
    println!(rt; "events {} {}", outcome.events_before, outcome.events)?;
    println!(rt; "unread {} {}", outcome.unread, worked::SCRIPT.len())?;
    println!(rt; "refused {} {}", outcome.disk_refused, outcome.sink_refused)?;
    println!(rt; "recover {}", outcome.recovered.number())?;
    rt.stdout().write_all(outcome.sink.bytes())
}

// An error says that the try itself wasn't made ready, or its outcome not printed.
fn main(rt: HostRuntime) -> Result<(), Fail> {
    let words = words(&rt)?;
    let outcome = carry_out(rt.alloc(), &words)?;
    print(&rt, &outcome)?;
    Ok(())
}
