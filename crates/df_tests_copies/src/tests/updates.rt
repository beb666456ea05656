// The copies of the superblock over disks in memory: updates, reads and repairs, and a disk that loses writes.
ghost use Rattle.std.specs.Prelude.{◌≡◌, ◌<◌};

use crate::tests::super_examples::{FIRST, NEW, members};
use df_base::SECTOR;
use df_buffers::ProbeRoom;
use df_disk::Disk;
use df_format::{Super, SuperFields, encode_copy, test_fields};
use df_layout::{Class, Place, Zone};
use df_memdisk::{Change, DroppingDisk, MemoryDisk};
use df_quorum::{Chosen, Slot, choose};
use df_superblock::{UpdateError, a_start_can_mislead, read_all, repair, update, write_copy};
use std::alloc::Global;
use std::process::Abort;

const SECOND: SuperFields = SuperFields {
    sequence: 2,
    ..FIRST
};

// Of version 2, in the first boot and in the one after it.
const BOOTED: SuperFields = SuperFields { boot: 1, ..NEW };

const REBOOTED: SuperFields = SuperFields { boot: 2, ..NEW };

// A blank disk whose listed calls fail.
fn blank(rt: &impl Abort, alloc: Global, failing: &[u64]) -> MemoryDisk {
    let failing = Vec::from_slice(alloc, failing).expect(rt, "memory of a list");
    MemoryDisk::new(alloc, failing)
}

fn new_room(rt: &impl Abort, alloc: Global) -> ProbeRoom {
    ProbeRoom::reserve(alloc).expect(rt, "memory of the copies' rooms")
}

fn usable(rt: &impl Abort, fields: &SuperFields) -> Super
    ensures { result ≡ fields.now }
{
    test_fields(fields).expect(rt, "a superblock that can be used")
}

fn slots<D: Disk>(rt: &impl Abort, disk: &mut D, room: &mut ProbeRoom) -> [Slot; 4] {
    read_all(disk, room).expect(rt, "copies that can be read")
}

fn chosen<D: Disk>(rt: &impl Abort, disk: &mut D, room: &mut ProbeRoom) -> Chosen {
    choose(&slots(rt, disk, room)).expect(rt, "two copies that agree")
}

fn put<D: Disk>(rt: &impl Abort, disk: &mut D, number: u8, bytes: &[u8; SECTOR]) {
    assert!(rt; disk.write(u64::from(number), bytes) == Ok(()));
}

// A disk with the four copies of a new file.
fn begun(rt: &impl Abort, alloc: Global, room: &mut ProbeRoom) -> MemoryDisk {
    let mut disk = blank(rt, alloc, &[]);
    assert!(rt; update(&mut disk, room, &usable(rt, &FIRST)) == Ok(()));
    disk
}

// The content that all four copies have.
fn all_of(content: SuperFields) -> Chosen {
    let members = [true; 4];
    Chosen { content, members }
}

#[test]
fn an_update_leads_from_four_equal_copies_to_four(rt: HostRuntime) {
    let mut room = new_room(&rt, rt.alloc());
    let mut disk = begun(&rt, rt.alloc(), &mut room);
    for fields in &[FIRST, SECOND] {
        let content = usable(&rt, fields);
        assert!(rt; update(&mut disk, &mut room, &content) == Ok(()));
        assert!(rt; chosen(&rt, &mut disk, &mut room) == all_of(*fields));
    }
    // Four writes and four syncs each, and reads add nothing.
    assert!(rt; disk.events() == 24);
}

#[test]
fn each_place_is_read_by_its_own_copy_alone(rt: HostRuntime) {
    let mut room = new_room(&rt, rt.alloc());
    let mut disk = blank(&rt, rt.alloc(), &[]);
    let content = usable(&rt, &FIRST);
    let mut stray = [0u8; SECTOR];
    encode_copy(&content, 1, &mut stray);
    put(&rt, &mut disk, 0, &stray);
    put(&rt, &mut disk, 1, &[0xa5; SECTOR]);
    assert!(rt; write_copy(&mut disk, &mut room, &content, 3) == Ok(()));
    let [first, second, third, fourth] = slots(&rt, &mut disk, &mut room);
    let place = Place {
        zone: Zone::Superblock,
        index: 1,
    };
    assert!(rt; first == Slot::Bad(Class::Elsewhere(place)));
    assert!(rt; second == Slot::Bad(Class::Garbled) && third == Slot::Bad(Class::Blank));
    let Slot::Sound(copy) = fourth else {
        panic!(rt; "copy 3 isn't sound");
    };
    assert!(rt; copy.number == 3 && copy.fields == FIRST);
}

#[test]
fn a_repair_writes_the_copies_that_are_no_members(rt: HostRuntime) {
    a_start_can_mislead();
    let mut room = new_room(&rt, rt.alloc());
    let mut disk = begun(&rt, rt.alloc(), &mut room);
    put(&rt, &mut disk, 1, &[0xa5; SECTOR]);
    put(&rt, &mut disk, 3, &[0xa5; SECTOR]);
    let hurt = chosen(&rt, &mut disk, &mut room);
    assert!(rt; hurt.content == FIRST && hurt.members == [true, false, true, false]);
    let content = usable(&rt, &hurt.content);
    assert!(rt; repair(&mut disk, &mut room, &hurt, &content) == Ok(()));
    assert!(rt; chosen(&rt, &mut disk, &mut room) == all_of(FIRST));
    // After eight events of an update and two writes: two writes and two syncs.
    assert!(rt; disk.events() == 14);
}

// The writes that a disk loses in two updates, and the copy of the second that is blamed.
const LOST: [(&[u64], Option<(u64, Class)>); 5] = [
    (&[6, 7], Some((1, Class::Stale))),
    (&[2, 3, 6, 7], Some((1, Class::Blank))),
    (&[5, 8], Some((0, Class::Stale))),
    (&[5, 6, 7, 8], Some((0, Class::Stale))),
    (&[7], None),
];

fn blames(copy: Option<(u64, Class)>) -> Result<(), UpdateError> {
    let Some((index, class)) = copy else {
        return Ok(());
    };
    let place = Place {
        zone: Zone::Superblock,
        index,
    };
    Err(UpdateError::Damaged { place, class })
}

// What the second of two updates answers where these writes are lost.
fn updated(
    rt: &impl Abort,
    alloc: Global,
    room: &mut ProbeRoom,
    lost: &[u64],
) -> Result<(), UpdateError> {
    let lost = Vec::from_slice(alloc, lost).expect(rt, "memory of a list");
    let mut disk = DroppingDisk::new(blank(rt, alloc, &[]), lost);
    let _ = update(&mut disk, room, &usable(rt, &FIRST));
    update(&mut disk, room, &usable(rt, &SECOND))
}

#[test]
fn an_update_whose_copies_are_lost_is_damaged(rt: HostRuntime) {
    let mut room = new_room(&rt, rt.alloc());
    for (lost, copy) in &LOST {
        assert!(rt; updated(&rt, rt.alloc(), &mut room, lost) == blames(*copy));
    }
}

#[test]
fn each_failing_call_of_an_update_is_a_disk_fault(rt: HostRuntime) {
    let mut room = new_room(&rt, rt.alloc());
    let content = usable(&rt, &FIRST);
    // Four writes, each with its sync, and four reads.
    for call in 1..14u64 {
        let mut disk = blank(&rt, rt.alloc(), &[call]);
        let answer = update(&mut disk, &mut room, &content);
        let wanted = if call <= 12 {
            Err(UpdateError::DiskFault)
        } else {
            Ok(())
        };
        assert!(rt; answer == wanted, "call {call}");
    }
}

// What a stop leaves in the sector of a copy that was being written.
#[derive(Clone, Copy, Debug)]
enum Left {
    Before,
    Written,
    Torn,
}

fn sector_of(content: &Super, number: u8) -> [u8; SECTOR]
    requires { number < 4 }
{
    let mut sector = [0u8; SECTOR];
    encode_copy(content, number, &mut sector);
    sector
}

// What is chosen where an update by its boot alone is stopped within the write of a copy.
fn stopped(rt: &impl Abort, alloc: Global, room: &mut ProbeRoom, number: u8, left: Left) -> Chosen
    requires { number < 4 }
{
    let old = usable(rt, &BOOTED);
    let new = usable(rt, &REBOOTED);
    // After the twelve calls of an update each copy has a write and a sync, which fails.
    let mut disk = blank(rt, alloc, &[14 + 2 * u64::from(number)]);
    assert!(rt; update(&mut disk, room, &old) == Ok(()));
    assert!(rt; update(&mut disk, room, &new) == Err(UpdateError::DiskFault));
    let bytes = match left {
        Left::Before => sector_of(&old, number),
        Left::Written => sector_of(&new, number),
        Left::Torn => [0xa5; SECTOR],
    };
    let mut choice = Vec::new(alloc);
    let sector = u64::from(number);
    choice
        .push(Change { sector, bytes })
        .expect(rt, "memory of a list");
    let Ok(mut disk) = disk.stop(choice) else {
        panic!(rt; "copy {number} isn't loose");
    };
    chosen(rt, &mut disk, room)
}

// The copy within whose write an update is stopped, and what is chosen where the sector is as it was, is torn, or is written: `o` is a
// copy that belongs to the old content, and `n` to the new one.
const STOPPED: [(u8, &'static [u8; 4], &'static [u8; 4], &'static [u8; 4]); 4] = [
    (0, b"oooo", b"-ooo", b"-ooo"),
    (1, b"-ooo", b"--oo", b"nn--"),
    (2, b"nn--", b"nn--", b"nnn-"),
    (3, b"nnn-", b"nnn-", b"nnnn"),
];

fn choice_of(picture: &[u8; 4]) -> Chosen {
    let new = members(picture, b'n');
    if new == [false; 4] {
        Chosen {
            content: BOOTED,
            members: members(picture, b'o'),
        }
    } else {
        Chosen {
            content: REBOOTED,
            members: new,
        }
    }
}

#[test]
fn an_update_by_its_boot_alone_leaves_the_old_content_or_the_new_one(rt: HostRuntime) {
    let mut room = new_room(&rt, rt.alloc());
    for (number, before, torn, written) in &STOPPED {
        for (left, picture) in [
            (Left::Before, *before),
            (Left::Torn, *torn),
            (Left::Written, *written),
        ] {
            let chosen = stopped(&rt, rt.alloc(), &mut room, *number % 4, left);
            assert!(rt; chosen == choice_of(picture), "copy {number}, {left:?}");
        }
    }
}
