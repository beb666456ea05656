// What came of words: how they ended, and what they left of the disk, of the script and of the sink.
use crate::runs::{ended, run_in};
use crate::worked::{SCRIPT, file_for};
use df_base::{MemorySink, MemorySource, Source};
use df_top::Status;
use std::alloc::Global;
use std::test::Fail;

/// What came of words.
#[derive(Drop)]
pub struct Outcome {
    pub status: Status,
    /// Events of the disk before and after them.
    pub events_before: u64,
    pub events: u64,
    /// Bytes of the script that weren't read.
    pub unread: usize,
    /// Growths that the disk and the sink were refused.
    pub disk_refused: u64,
    pub sink_refused: u64,
    /// How a recovery ends after them.
    pub recovered: Status,
    pub sink: MemorySink,
}

// How many bytes are left of the script.
fn left(source: &mut MemorySource) -> Result<usize, Fail> {
    let mut room = [0u8; 4096];
    Ok(source.read(&mut room)?)
}

/// Carries out the words over their file and the script.
pub fn carry_out(alloc: Global, words: &[String]) -> Result<Outcome, Fail> {
    let mut disk = file_for(alloc, words)?;
    let events_before = disk.events();
    let mut source = MemorySource::new(Vec::from_slice(alloc, SCRIPT)?, Vec::new(alloc));
    let mut sink = MemorySink::new(alloc, Vec::new(alloc));
    let status = run_in(alloc, words, &mut source, &mut sink, &mut disk);
    let events = disk.events();
    let disk_refused = disk.refused();
    let recovered = ended(alloc, &mut disk, &["recover"], b"")?;
    Ok(Outcome {
        status,
        events_before,
        events,
        unread: left(&mut source)?,
        disk_refused,
        sink_refused: sink.refused(),
        recovered,
        sink,
    })
}
