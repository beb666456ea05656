// The file and the script of the tries: an open of the file has something to mend, a scrub something to find, and the script has each
// kind of line.
use crate::runs::{ended, small_file};
use df_memdisk::{MemoryDisk, Strike};
use df_top::Status;
use std::alloc::Global;
use std::test::Fail;

// What the file holds: an op with its reply, and a block that a checkpoint references.
const BEFORE: &[u8] = b"append 5 1 -\nreply 1 aa\nblock 1 bb\ncheckpoint 0102\nstep\nstep\n";

/// Each kind of line, and a refusal.
pub const SCRIPT: &[u8] =
    b"append 5 2 0102\nreply 2 cc\nprepare 2\nlookup 5\nappend 0 1 -\nblock 2 dd\nread 3\nscrub\n\
    release 1\ncheckpoint -\nstep\nstep\nscrub\nrecent\nappend 6 1 -\n";

// A copy of the superblock, a sector of headers, and a sector of the referenced block.
const HURT: [u64; 3] = [1, 4, 80];

// A small file after that, with sectors that show other bytes.
fn hurt_file(alloc: Global) -> Result<MemoryDisk, Fail> {
    let mut disk = small_file(alloc)?;
    if ended(alloc, &mut disk, &["run"], BEFORE)? != Status::Done {
        return Err("the file isn't made".into());
    }
    for sector in HURT {
        disk.strike(sector, Strike::Fill { byte: 0xa5 })?;
    }
    Ok(disk)
}

/// The file that these words are tried on: a blank disk for `format`, and else that file.
pub fn file_for(alloc: Global, words: &[String]) -> Result<MemoryDisk, Fail> {
    match words.first() {
        Some(word) if word.as_str() == "format" => Ok(MemoryDisk::new(alloc, Vec::new(alloc))),
        _ => hurt_file(alloc),
    }
}
