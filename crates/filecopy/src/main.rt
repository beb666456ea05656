//! The copy to another layout from the command line: `filecopy FROM TO LAYOUT`.
#![tactic(auto)]

use df_base::{OutOfMemory, ToWrite};
use df_copy::{Status, copy};
use df_filedisk::FileDisk;
use df_program::{Ends, Words};
use std::process::ExitCode;

// Takes the two paths off the words and does what the others say. Without both no file is ever opened.
fn act(rt: &HostRuntime) -> Result<Status, OutOfMemory> {
    let mut words = Words::of(rt)?;
    let mut from = FileDisk::new(rt, words.take_path(rt.alloc()));
    let mut to = FileDisk::new(rt, words.take_path(rt.alloc()));
    let mut sink = ToWrite::new(rt.stdout());
    let others = words.others(rt.alloc())?;
    Ok(copy(rt.alloc(), &others, &mut from, &mut to, &mut sink))
}

fn main(rt: HostRuntime) -> ExitCode {
    ExitCode::from(act(&rt).unwrap_or(Status::Memory).number())
}
