// Keeping the file off the numbers of the standard streams. What is opened next gets the least number that is free, so
// where a stream was closed the answers would be written over the data file, or the script be read from it.
use std::fs::OpenOptions;
use std::io;
use std::os::fd::AsRawFd;
use std::rt::Files;

// The number of standard error, the last of the three.
const LAST_STREAM: i32 = 2;

/// What stands in for standard streams that are closed: three handles on a folder, which can be neither read nor written.
#[derive(Drop)]
pub struct StandIns<F> {
    _first: F,
    _second: F,
    _third: F,
}

// Whether all three streams are open. A pipe gets the least two numbers that are free, and no policy on paths denies it.
fn are_open<R: Files>(rt: &R) -> bool {
    match rt.pipe() {
        Ok((reader, writer)) => {
            reader.as_raw_fd() > LAST_STREAM && writer.as_raw_fd() > LAST_STREAM
        }
        Err(_) => false,
    }
}

fn hold<R: Files>(rt: &R) -> io::Result<R::File> {
    OpenOptions::new().read(true).open(rt, "/")
}

/// Takes the numbers of the standard streams that are closed, so that what is opened while the stand-ins live gets a
/// greater one. None where all three are open. An error where it can't be told, and nothing may be opened then.
pub fn stand_in<R: Files>(rt: &R) -> io::Result<Option<StandIns<R::File>>> {
    if are_open(rt) {
        return Ok(None);
    }
    Ok(Some(StandIns {
        _first: hold(rt)?,
        _second: hold(rt)?,
        _third: hold(rt)?,
    }))
}
