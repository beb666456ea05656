//! The mending from a second file from the command line: `filemirror FIRST SECOND`.
#![tactic(auto)]

use df_base::{OutOfMemory, ToWrite};
use df_filedisk::FileDisk;
use df_mirror::{Status, mirror};
use df_program::{Ends, Words};
use std::process::ExitCode;

// Takes the two paths off the words and does what the others say. Without both no file is ever opened.
fn act(rt: &HostRuntime) -> Result<Status, OutOfMemory> {
    let mut words = Words::of(rt)?;
    let mut first = FileDisk::new(rt, words.take_path(rt.alloc()));
    let mut second = FileDisk::new(rt, words.take_path(rt.alloc()));
    let mut sink = ToWrite::new(rt.stdout());
    let others = words.others(rt.alloc())?;
    Ok(mirror(rt.alloc(), &others, &mut first, &mut second, &mut sink))
}

fn main(rt: HostRuntime) -> ExitCode {
    ExitCode::from(act(&rt).unwrap_or(Status::Memory).number())
}
