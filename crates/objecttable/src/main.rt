//! The object table from the command line: `objecttable FILE table`, the script on standard input.
#![tactic(auto)]

use df_base::{FromRead, OutOfMemory, ToWrite};
use df_filedisk::FileDisk;
use df_program::{Ends, Words};
use df_table::{Status, run_table};
use std::process::ExitCode;

// Takes the path off the words and does what the others say. Without a path the file is never opened.
fn act(rt: &HostRuntime) -> Result<Status, OutOfMemory> {
    let mut words = Words::of(rt)?;
    let mut disk = FileDisk::new(rt, words.take_path(rt.alloc()));
    let mut source = FromRead::new(rt.stdin());
    let mut sink = ToWrite::new(rt.stdout());
    let others = words.others(rt.alloc())?;
    Ok(run_table(rt.alloc(), &others, &mut source, &mut sink, &mut disk))
}

fn main(rt: HostRuntime) -> ExitCode {
    ExitCode::from(act(&rt).unwrap_or(Status::Memory).number())
}
