//! Transcripts of the programs: `transcripts FILE..` plays each file, and says what didn't come as the file tells it.
#![tactic(auto)]

use df_transcripts::play;
use std::process::ExitCode;
use std::{env, fs, io};

// Plays one file, and tells what came of it; how many things weren't so.
fn play_file(rt: &HostRuntime, path: &str) -> io::Result<u64> {
    let text = fs::read_to_string(rt, path)?;
    match play(rt.alloc(), text.as_str()) {
        Ok(played) => {
            print!(rt; "{}", played.told)?;
            println!(rt;
                "{path}: {} cases, {} answers",
                played.cases, played.answers
            )?;
            Ok(played.failures)
        }
        Err(_) => {
            println!(rt; "{path}: no memory")?;
            Ok(1)
        }
    }
}

// Plays all files.
fn play_files(rt: &HostRuntime) -> io::Result<u64> {
    let mut failures = 0u64;
    for path in env::args(rt)?.skip(1) {
        failures = failures.saturating_add(play_file(rt, path.as_str())?);
    }
    Ok(failures)
}

fn main(rt: HostRuntime) -> ExitCode {
    match play_files(&rt) {
        Ok(0) => ExitCode::from(0),
        _ => ExitCode::from(1),
    }
}
