// Appends that are found again, and what is decided where something of them was lost.
ghost use Rattle.std.specs.Prelude.{◌≡◌, ◌≤◌};
ghost use Rattle.df_headers.specs.Ring.{IsHeaderTable};

use crate::tests::files::{prepare_header, scanned};
use crate::tests::rings::reserved_table;
use df_base::Check;
use df_buffers::{Prepare, Raw};
use df_cases::Decision;
use df_disk::Disk;
use df_headers::HeaderTable;
use df_journal::{Tail, append, bound_top, count_rings, find_reach, is_behind, is_lost};
use df_layout::{Class, Layout};
use df_memdisk::{MemoryDisk, Strike};
use df_sessions::SessionTable;
use df_stamps::Counters;
use std::alloc::Global;
use std::process::Abort;

// Appends the prepare of the next op in a boot, and hands back its checksum.
fn append_next(
    disk: &mut MemoryDisk,
    layout: &Layout,
    table: &mut HeaderTable,
    rt: &impl Abort,
    alloc: Global,
    op: u64,
    boot: u64,
    parent: Check,
) -> Check
    requires slots { layout.now.slots ≡ 32 }
    requires size { layout.now.message_size ≡ 8192 }
    requires op { (1 ≤ op) × (op ≤ 1000) }
    requires boot { boot ≤ 1000 }
    requires table { IsHeaderTable layout.now 7 table.old }
    ensures { IsHeaderTable layout.now 7 table.new }
{
    let room: Raw<Prepare> = Raw::reserve(alloc, layout).expect(rt, "memory of a room");
    let mut sector = Raw::reserve(alloc, layout).expect(rt, "memory of a sector");
    let unit = room.make(prepare_header(op, op, boot, false, parent), &[]);
    append(disk, layout, &unit, table, &mut sector).expect(rt, "an append");
    unit.header().checksum
}

// Writes both sectors of the header ring.
pub(crate) fn write_ring(
    rt: &impl Abort,
    alloc: Global,
    disk: &mut MemoryDisk,
    layout: &Layout,
    table: &HeaderTable,
)
    requires slots { layout.now.slots ≡ 32 }
    requires table { IsHeaderTable layout.now 7 table.now }
{
    let mut sector = Raw::reserve(alloc, layout).expect(rt, "memory of a sector");
    table
        .write_sector(disk, &mut sector, 0)
        .expect(rt, "a write");
    table
        .write_sector(disk, &mut sector, 1)
        .expect(rt, "a write");
    disk.sync().expect(rt, "a sync");
}

// The boots of five prepares.
type Boots = [u8; 5];

// A file of five prepares, one of each op from 1 on.
fn five(rt: &impl Abort, alloc: Global, layout: &Layout, boots: &Boots) -> MemoryDisk
    requires slots { layout.now.slots ≡ 32 }
    requires size { layout.now.message_size ≡ 8192 }
{
    let mut disk = MemoryDisk::new(alloc, Vec::new(alloc));
    let mut table = reserved_table(alloc, layout).expect(rt, "memory of a table");
    write_ring(rt, alloc, &mut disk, layout, &table);
    let boot = u64::from(boots[0]);
    let one = append_next(&mut disk, layout, &mut table, rt, alloc, 1, boot, [0; 16]);
    let boot = u64::from(boots[1]);
    let two = append_next(&mut disk, layout, &mut table, rt, alloc, 2, boot, one);
    let boot = u64::from(boots[2]);
    let three = append_next(&mut disk, layout, &mut table, rt, alloc, 3, boot, two);
    let boot = u64::from(boots[3]);
    let four = append_next(&mut disk, layout, &mut table, rt, alloc, 4, boot, three);
    let boot = u64::from(boots[4]);
    append_next(&mut disk, layout, &mut table, rt, alloc, 5, boot, four);
    disk
}

// What is found after an empty checkpoint, in a boot: the tail, and whether anything is behind or lost.
fn found(
    rt: &impl Abort,
    alloc: Global,
    disk: &mut MemoryDisk,
    layout: &Layout,
    boot: u64,
) -> (Tail, bool, bool)
    requires slots { layout.now.slots ≡ 32 }
    requires clients { layout.now.clients ≡ 4 }
{
    let found = scanned(rt, alloc, disk, layout, boot);
    let mut sessions = SessionTable::new(4);
    let tail = find_reach(layout, &found, &[0; 16], &mut sessions).tail;
    let seen = count_rings(&found);
    let own = Counters {
        ring_op: bound_top(&found, boot, tail.op),
        ..seen
    };
    (
        tail,
        is_behind(&seen, 1, 0, 32, boot),
        is_lost(&own, 0, tail.op),
    )
}

// The decisions on the first eight slots.
fn decisions(
    rt: &impl Abort,
    alloc: Global,
    disk: &mut MemoryDisk,
    layout: &Layout,
    boot: u64,
) -> [Decision; 8]
    requires slots { layout.now.slots ≡ 32 }
{
    let found = scanned(rt, alloc, disk, layout, boot);
    let mut decided = [LOST; 8];
    for (i, decision) in decided.iter_mut().enumerate() {
        *decision = found.decision(i as u32);
    }
    decided
}

const TAKE: Decision = Decision::Take { mend: false };

const MEND: Decision = Decision::Take { mend: true };

const EMPTY: Decision = Decision::Empty { mend: false };

const CLEAR: Decision = Decision::Empty { mend: true };

const LOST: Decision = Decision::Lost;

// Which of the five prepares are taken.
const ALL: [Decision; 8] = [EMPTY, TAKE, TAKE, TAKE, TAKE, TAKE, EMPTY, EMPTY];

const FIRST_THREE: [Decision; 8] = [EMPTY, TAKE, TAKE, TAKE, EMPTY, EMPTY, EMPTY, EMPTY];

const FIRST_FOUR: [Decision; 8] = [EMPTY, TAKE, TAKE, TAKE, TAKE, EMPTY, EMPTY, EMPTY];

const ALL_BUT_FIRST: [Decision; 8] = [EMPTY, EMPTY, TAKE, TAKE, TAKE, TAKE, EMPTY, EMPTY];

const NONE: [Decision; 8] = [EMPTY; 8];

// The sector of that file that is spoilt, if any; the op and the mark of the tail that is found, whether anything is lost; and the
// decisions on the first eight slots.
type Row = (&'static str, Option<u64>, (u64, u64, bool), [Decision; 8]);

const ROWS: [Row; 3] = [
    ("five appends", None, (5, 4, false), ALL),
    (
        "a spoilt header sector loses no prepare",
        Some(4),
        (5, 4, false),
        [CLEAR, MEND, MEND, MEND, MEND, MEND, CLEAR, CLEAR],
    ),
    (
        "a spoilt prepare is lost and ends the tail",
        Some(12),
        (2, 1, true),
        [EMPTY, TAKE, TAKE, LOST, TAKE, TAKE, EMPTY, EMPTY],
    ),
];

#[test]
fn five_appends_are_found_but_for_a_spoilt_prepare(rt: HostRuntime) {
    let layout = Layout::small();
    for (name, spoilt, (op, mark, is_lost), decided) in &ROWS {
        let mut disk = five(&rt, rt.alloc(), &layout, &[0; 5]);
        if let Some(sector) = spoilt {
            assert!(rt; disk.strike(*sector, Strike::Fill { byte: 0xa5 }).is_ok());
        }
        let (tail, behind, lost) = found(&rt, rt.alloc(), &mut disk, &layout, 0);
        assert!(rt;
            (tail.op, tail.mark, behind, lost) == (*op, *mark, false, *is_lost),
            "{name}"
        );
        assert!(rt;
            decisions(&rt, rt.alloc(), &mut disk, &layout, 0) == *decided,
            "{name}"
        );
    }
}

// The boots of the five prepares, and the superblock's; the op and the mark of the tail, whether anything is behind and whether it is
// lost; and the decisions on the first eight slots.
type Booted = (Boots, u64, (u64, u64, bool, bool), [Decision; 8]);

const BOOTED: [Booted; 5] = [
    // All are of the superblock's boot.
    ([3, 3, 3, 3, 3], 3, (5, 4, false, false), ALL),
    // Two are of boot 3, in a file of version 1.
    ([0, 0, 0, 3, 3], 0, (3, 2, true, false), FIRST_THREE),
    // The last is of an earlier boot.
    ([3, 3, 3, 3, 2], 3, (4, 3, false, false), FIRST_FOUR),
    // The first is.
    ([2, 3, 3, 3, 3], 3, (0, 0, false, true), ALL_BUT_FIRST),
    // All are of version 1, in a file of version 2.
    ([0, 0, 0, 0, 0], 1, (0, 0, false, false), NONE),
];

#[test]
fn a_unit_of_another_boot_is_neither_taken_nor_lost(rt: HostRuntime) {
    let layout = Layout::small();
    for (boots, boot, ended, decided) in &BOOTED {
        let mut disk = five(&rt, rt.alloc(), &layout, boots);
        let (tail, behind, lost) = found(&rt, rt.alloc(), &mut disk, &layout, *boot);
        assert!(rt; (tail.op, tail.mark, behind, lost) == *ended, "{boots:?}");
        assert!(rt;
            decisions(&rt, rt.alloc(), &mut disk, &layout, *boot) == *decided,
            "{boots:?}"
        );
    }
}

#[test]
fn a_table_has_the_headers_and_classes_of_its_slots(rt: HostRuntime) {
    let layout = Layout::small();
    let mut disk = five(&rt, rt.alloc(), &layout, &[0; 5]);
    assert!(rt; disk.strike(12, Strike::Fill { byte: 0xa5 }).is_ok());
    let found = scanned(&rt, rt.alloc(), &mut disk, &layout, 0);
    let ops = (
        found.prepare(2).map(|h| h.op),
        found.header(3).map(|h| h.op),
    );
    assert!(rt; ops == (Some(2), Some(3)));
    assert!(rt; (found.class(3), found.class(6)) == (Class::Garbled, Class::Blank));
    assert!(rt; found.header_class(6) == Class::Stale);
}
