// Runs of the program over a disk in memory, of which a caller's proof is told nothing, and files on one.
use df_base::{MemorySink, MemorySource};
use df_memdisk::MemoryDisk;
use df_top::{Status, run};
use std::alloc::Global;
use std::test::Fail;

/// Runs these words over a script.
pub fn run_in(
    alloc: Global,
    words: &[String],
    source: &mut MemorySource,
    sink: &mut MemorySink,
    disk: &mut MemoryDisk,
) -> Status {
    run(alloc, words, source, sink, disk)
}

// Words of a run.
struct WordList {
    list: Vec<String>,
}

// Its owner lets go of it in one call, and not string by string.
impl Drop for WordList {
    fn drop(self) {
        let WordList { list: _ } = self;
    }
}

fn words(alloc: Global, texts: &[&str]) -> Result<WordList, Fail> {
    let mut list = Vec::new(alloc);
    for text in texts {
        list.push(String::from_str(alloc, text)?)?;
    }
    Ok(WordList { list })
}

/// How these words end, over this script.
pub fn ended(
    alloc: Global,
    disk: &mut MemoryDisk,
    texts: &[&str],
    script: &[u8],
) -> Result<Status, Fail> {
    let words = words(alloc, texts)?;
    let mut source = MemorySource::new(Vec::from_slice(alloc, script)?, Vec::new(alloc));
    let mut sink = MemorySink::new(alloc, Vec::new(alloc));
    Ok(run_in(alloc, &words.list, &mut source, &mut sink, disk))
}

/// A disk with a new small file of cluster 7.
pub fn small_file(alloc: Global) -> Result<MemoryDisk, Fail> {
    let mut disk = MemoryDisk::new(alloc, Vec::new(alloc));
    match ended(alloc, &mut disk, &["format", "small", "7"], b"")? {
        Status::Done => Ok(disk),
        _ => Err("no file was made".into()),
    }
}
