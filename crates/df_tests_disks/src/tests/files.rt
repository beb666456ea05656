// What no contract can say: which bytes reach a file and come from it, and what short and
// interrupted reads leave in the buffer.
use crate::tests::guarded::{Guarded, Turn};
use crate::tests::rows::{Call, Row, assert_answers, sector_of};
use df_base::{Failed, SECTOR};
use df_disk::Disk;
use df_filedisk::FileDisk;
use std::alloc::Global;
use std::fs;
use std::os::unix::fs::FileExt;
use std::process::Abort;
use std::rt::Files;

fn path_of(rt: &impl Abort, alloc: Global, name: &str) -> String {
    String::from_str(alloc, name).expect(rt, "memory of a path")
}

/// The calls of a disk over the file of this name are answered as the rows say.
pub(crate) fn assert_over<R: Files>(
    rt: &impl Abort,
    system: &R,
    alloc: Global,
    name: &str,
    rows: &[Row],
)
where
    R::File: FileExt,
{
    let mut disk = FileDisk::new(system, path_of(rt, alloc, name));
    assert_answers(rt, &mut disk, rows);
}

/// Where the file can't be opened, each call fails.
pub(crate) const FAILING: [Row; 3] = [
    (Call::Holds(0, 0), Err(Failed)),
    (Call::Fill(0, 1), Err(Failed)),
    (Call::Sync, Err(Failed)),
];

// Sector 1 where the reads of the file at this path follow these turns.
fn read_in_turns(rt: &HostRuntime, path: String, turns: &[Turn]) -> Result<[u8; SECTOR], Failed> {
    let guarded = Guarded::new(rt, turns);
    let mut disk = FileDisk::new(&guarded, path);
    sector_of(&mut disk, 1)
}

#[test]
fn short_reads_go_on_and_end_in_zeros(rt: HostRuntime) {
    let name = "file_of_short_reads";
    let short = [
        Turn::Gives(3),
        Turn::Interrupted,
        Turn::Gives(2),
        Turn::Gives(0),
    ];
    let mut wanted = [0u8; SECTOR];
    wanted[3..5].fill(3);
    let path = path_of(&rt, rt.alloc(), name);
    assert!(rt; read_in_turns(&rt, path, &short) == Ok(wanted));
    let broken = [Turn::Gives(3), Turn::Breaks, Turn::Gives(8)];
    let path = path_of(&rt, rt.alloc(), name);
    assert!(rt; read_in_turns(&rt, path, &broken) == Err(Failed));
    assert!(rt; fs::remove_file(&rt, name).is_ok());
}

#[test]
fn a_file_is_made_and_keeps_what_was_written(rt: HostRuntime) {
    let name = "file_of_a_test";
    let _ = fs::remove_file(&rt, name);
    // an absent file is a blank disk
    let rows = [
        (Call::Holds(5, 0), Ok(true)),
        (Call::Fill(2, 3), Ok(true)),
        (Call::Sync, Ok(true)),
    ];
    assert_over(&rt, &rt, rt.alloc(), name, &rows);
    let length = fs::metadata(&rt, name).map(|found| found.len());
    assert!(rt; length.ok() == Some(3 * SECTOR as u64));
    assert_over(&rt, &rt, rt.alloc(), name, &[(Call::Holds(2, 3), Ok(true))]);
    assert!(rt; fs::remove_file(&rt, name).is_ok());
}

#[test]
fn a_truncated_file_has_blank_sectors(rt: HostRuntime) {
    let name = "truncated_file_of_a_test";
    assert!(rt; fs::write(&rt, name, [5u8; SECTOR + 10].as_slice()).is_ok());
    let mut two = [7u8; 2 * SECTOR];
    let mut disk = FileDisk::new(&rt, path_of(&rt, rt.alloc(), name));
    let answer = disk.read(0, &mut two);
    let mut wanted = [0u8; 2 * SECTOR];
    wanted[..SECTOR + 10].fill(5);
    assert!(rt; answer == Ok(()) && two == wanted);
    assert!(rt; fs::remove_file(&rt, name).is_ok());
}

#[test]
fn a_file_that_cannot_be_opened_fails_each_call(rt: HostRuntime) {
    assert_over(&rt, &rt, rt.alloc(), "no_such_folder/file", &FAILING);
}
