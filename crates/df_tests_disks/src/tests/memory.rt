// Each call once, on rows whose outcome is known beforehand.
ghost use Rattle.std.specs.Prelude.{◌≤◌};

use crate::tests::rows::{Call, assert_answers};
use df_base::{Failed, SECTOR};
use df_disk::Disk;
use df_memdisk::{Change, MemoryDisk, StopError, Strike};
use std::alloc::Global;
use std::process::Abort;

/// A blank disk whose listed calls fail.
pub(crate) fn failing(rt: &impl Abort, alloc: Global, calls: &[u64]) -> MemoryDisk {
    let calls = Vec::from_slice(alloc, calls).expect(rt, "memory of a list");
    MemoryDisk::new(alloc, calls)
}

fn blank(alloc: Global) -> MemoryDisk {
    MemoryDisk::new(alloc, Vec::new(alloc))
}

// A choice of one sector at a stop for each byte, the last of which stays.
fn choice_of(rt: &impl Abort, alloc: Global, sector: u64, bytes: &[u8]) -> Vec<Change> {
    let mut choice = Vec::new(alloc);
    for byte in bytes {
        let bytes = [*byte; SECTOR];
        choice
            .push(Change { sector, bytes })
            .expect(rt, "memory of a change");
    }
    choice
}

// The disk after a stop that is taken, with the changes of one sector.
fn stopped(
    rt: &impl Abort,
    alloc: Global,
    disk: MemoryDisk,
    sector: u64,
    bytes: &[u8],
) -> MemoryDisk {
    match disk.stop(choice_of(rt, alloc, sector, bytes)) {
        Ok(disk) => disk,
        Err(_) => panic!(rt; "a stop of loose sectors was refused"),
    }
}

// A stop that changes this sector is refused, for it isn't loose; the disk as it was.
fn refused(rt: &impl Abort, alloc: Global, disk: MemoryDisk, sector: u64) -> MemoryDisk {
    match disk.stop(choice_of(rt, alloc, sector, &[0xa5])) {
        Ok(_) => panic!(rt; "a sector that isn't loose was changed"),
        Err((disk, error)) => {
            assert!(rt; error == StopError::NotLoose { sector });
            disk
        }
    }
}

// What four sectors show that are read at once.
fn four_at(disk: &mut MemoryDisk, first: u64) -> Option<[u8; 4 * SECTOR]>
    requires { first ≤ 1000 }
{
    let mut shown = [7u8; 4 * SECTOR];
    disk.read(first, &mut shown).ok()?;
    Some(shown)
}

#[test]
fn sectors_show_what_was_written_last_and_zeros_before(rt: HostRuntime) {
    let mut disk = blank(rt.alloc());
    let mut two = [1u8; 2 * SECTOR];
    two[SECTOR..].fill(2);
    assert!(rt; disk.write(3, &two) == Ok(()));
    let rows = [(Call::Sync, Ok(true)), (Call::Fill(4, 9), Ok(true))];
    assert_answers(&rt, &mut disk, &rows);
    let mut wanted = [0u8; 4 * SECTOR];
    wanted[SECTOR..2 * SECTOR].fill(1);
    wanted[2 * SECTOR..3 * SECTOR].fill(9);
    assert!(rt; four_at(&mut disk, 2) == Some(wanted) && disk.events() == 3);
}

// The disk after two calls with a sync between them.
fn filled(rt: &impl Abort, alloc: Global, firm: Call, loose: Call) -> MemoryDisk {
    let mut disk = blank(alloc);
    let rows = [(firm, Ok(true)), (Call::Sync, Ok(true)), (loose, Ok(true))];
    assert_answers(rt, &mut disk, &rows);
    disk
}

#[test]
fn a_stop_tears_loose_sectors_alone(rt: HostRuntime) {
    let disk = filled(&rt, rt.alloc(), Call::Fill(5, 5), Call::Fill(6, 6));
    let disk = refused(&rt, rt.alloc(), disk, 5);
    assert!(rt; disk.events() == 3);
    let mut disk = stopped(&rt, rt.alloc(), disk, 6, &[0xa5, 0x5a]);
    assert!(rt; disk.events() == 4);
    let rows = [
        (Call::Holds(5, 5), Ok(true)),
        (Call::Holds(6, 0x5a), Ok(true)),
    ];
    assert_answers(&rt, &mut disk, &rows);
    let _disk = refused(&rt, rt.alloc(), disk, 6);
}

#[test]
fn listed_calls_fail_and_a_listed_write_is_in_the_log(rt: HostRuntime) {
    let mut disk = failing(&rt, rt.alloc(), &[2, 4, 5]);
    let table = [
        (Call::Fill(1, 1), Ok(true), 1),
        (Call::Fill(1, 2), Err(Failed), 2),
        (Call::Sync, Ok(true), 3),
        (Call::Sync, Err(Failed), 3),
        (Call::Holds(1, 2), Err(Failed), 3),
        (Call::Holds(1, 2), Ok(true), 3),
    ];
    for (call, wanted, events) in &table {
        assert_answers(&rt, &mut disk, &[(*call, *wanted)]);
        assert!(rt; disk.events() == *events);
    }
    assert!(rt; disk.refused() == 0);
}

#[test]
fn a_strike_shows_its_bytes_in_one_sector_and_adds_no_event(rt: HostRuntime) {
    let mut disk = filled(&rt, rt.alloc(), Call::Fill(3, 1), Call::Fill(3, 2));
    let table: [(u16, Strike, u8); 8] = [
        (3, Strike::Fill { byte: 0xa5 }, 0xa5),
        (3, Strike::Earlier { events: 0 }, 0),
        (3, Strike::Earlier { events: 1 }, 1),
        (3, Strike::Fill { byte: 0x5a }, 0x5a),
        (5, Strike::Like { sector: 3 }, 0x5a),
        (3, Strike::Earlier { events: 9 }, 2),
        (3, Strike::Like { sector: 7 }, 0),
        (5, Strike::Like { sector: 5 }, 0x5a),
    ];
    for (sector, strike, byte) in &table {
        assert!(rt; disk.strike(u64::from(*sector), *strike).is_ok());
        let rows = [
            (Call::Holds(*sector, *byte), Ok(true)),
            (Call::Holds(4, 0), Ok(true)),
        ];
        assert_answers(&rt, &mut disk, &rows);
    }
    assert!(rt; disk.events() == 3 && disk.refused() == 0);
}

#[test]
fn a_struck_sector_is_shown_so_until_it_is_written_or_stopped(rt: HostRuntime) {
    let mut disk = blank(rt.alloc());
    assert!(rt; disk.write(0, &[1u8; 3 * SECTOR]) == Ok(()));
    for sector in 0..4 {
        assert!(rt; disk.strike(sector, Strike::Fill { byte: 0xa5 }).is_ok());
    }
    assert_answers(&rt, &mut disk, &[(Call::Fill(2, 2), Ok(true))]);
    let disk = refused(&rt, rt.alloc(), disk, 3);
    let mut disk = stopped(&rt, rt.alloc(), disk, 0, &[8]);
    let rows = [
        (Call::Holds(0, 8), Ok(true)),
        (Call::Holds(1, 0xa5), Ok(true)),
        (Call::Holds(2, 2), Ok(true)),
        (Call::Holds(3, 0xa5), Ok(true)),
    ];
    assert_answers(&rt, &mut disk, &rows);
    assert!(rt; disk.events() == 3);
}

#[test]
fn a_synced_sector_is_not_loose_and_an_empty_stop_is_taken(rt: HostRuntime) {
    let mut disk = blank(rt.alloc());
    let rows = [(Call::Fill(0, 1), Ok(true)), (Call::Sync, Ok(true))];
    assert_answers(&rt, &mut disk, &rows);
    let disk = refused(&rt, rt.alloc(), disk, 0);
    let mut disk = stopped(&rt, rt.alloc(), disk, 0, &[]);
    assert_answers(&rt, &mut disk, &[(Call::Holds(0, 1), Ok(true))]);
}
