//! Notes in a data file: each line of standard input becomes a note of FILE, its op is printed, and at the end all notes that stand there.
//! Below stands the edge alone; the run is `keep_notes` of `df_notes`.
#![tactic(auto)]

use df_base::ToWrite;
use df_filedisk::FileDisk;
use df_notes::{Ended, keep_notes};
use df_program::Ends;
use std::env;
use std::io::{self, BufRead, BufReader};
use std::process::ExitCode;

// The path, the first word after the program's name.
fn path(rt: &HostRuntime) -> io::Result<String> {
    let mut words = env::args(rt)?.skip(1);
    match words.next() {
        Some(path) => Ok(path),
        None => Ok(String::new(rt.alloc())),
    }
}

// All notes, before the first is kept.
fn notes(rt: &HostRuntime) -> io::Result<Vec<String>> {
    let mut notes = Vec::new(rt.alloc());
    for line in BufReader::new(rt.alloc(), rt.reader())?.lines(rt.alloc()) {
        notes.push(line?)?;
    }
    Ok(notes)
}

// Keeps the notes in the file of this path.
fn act(rt: &HostRuntime, path: String, notes: &[String]) -> Result<(), Ended> {
    let mut disk = FileDisk::new(rt, path);
    let mut sink = ToWrite::new(rt.stdout());
    keep_notes(rt.alloc(), notes, &mut sink, &mut disk)
}

fn main(rt: HostRuntime) -> ExitCode {
    let (Ok(path), Ok(notes)) = (path(&rt), notes(&rt)) else {
        return ExitCode::from(Ended::ReadFault.number());
    };
    match act(&rt, path, &notes) {
        Ok(()) => ExitCode::from(0),
        Err(ended) => ExitCode::from(ended.number()),
    }
}
