// What is found of prepares that the superblock names, of groups and of earlier boots: after a checkpoint at op 4 whose superblock
// has head 6 and boot 3, and in a file of version 1.
ghost use Rattle.std.specs.Prelude.{◌≡◌, ◌≤◌};
ghost use Rattle.df_headers.specs.Ring.{IsHeaderTable};

use crate::tests::files::{blank, prepare_header, scanned_from};
use crate::tests::rings::reserved_table;
use crate::tests::tails::write_ring;
use df_base::Check;
use df_buffers::{HeaderSector, Prepare, Raw, Sound};
use df_cases::Decision;
use df_headers::HeaderTable;
use df_journal::{Start, append, bound_top, find_reach, is_lost, lacking_known, put};
use df_layout::Layout;
use df_memdisk::{MemoryDisk, Strike};
use df_sessions::SessionTable;
use df_stamps::Counters;
use std::alloc::Global;
use std::process::Abort;

// What is left of a prepare: all, the prepare without its header, its header alone, or nothing.
#[derive(Clone, Copy)]
enum Left {
    All,
    Prepare,
    Header,
    Nothing,
}

// A prepare: its boot, whether it is of a group of two, the ops 5 and 6 or 7 and 8, and what is left of it.
type Written = (u8, bool, Left);

// The two tables of headers that prepares are written with: what is put into the second never comes to the disk.
#[derive(Drop)]
struct Tables {
    shown: HeaderTable,
    unshown: HeaderTable,
}

// The checksum of the checkpoint's prepare, of op 4.
const BASE: Check = [4; 16];

// Appends a prepare with its header, or puts it alone.
fn write_unit(
    disk: &mut MemoryDisk,
    layout: &Layout,
    unit: &Sound<Prepare>,
    tables: &mut Tables,
    rt: &impl Abort,
    alloc: Global,
    is_told: bool,
)
    requires layout { unit.now.layout ≡ layout.now }
    requires shown { IsHeaderTable layout.now unit.now.unit.header.cluster tables.old.shown }
    requires unshown { IsHeaderTable layout.now unit.now.unit.header.cluster tables.old.unshown }
    ensures shown { IsHeaderTable layout.now unit.now.unit.header.cluster tables.new.shown }
    ensures unshown { IsHeaderTable layout.now unit.now.unit.header.cluster tables.new.unshown }
{
    if is_told {
        let mut sector: Raw<HeaderSector> = Raw::reserve(alloc, layout).expect(
            rt,
            "memory of a sector",
        );
        append(disk, layout, unit, &mut tables.shown, &mut sector).expect(rt, "an append");
    } else {
        put(disk, layout, unit, &mut tables.unshown).expect(rt, "a put");
    }
}

// Writes a prepare after the one with this checksum, and hands back its own.
fn write(
    disk: &mut MemoryDisk,
    layout: &Layout,
    tables: &mut Tables,
    rt: &impl Abort,
    alloc: Global,
    op: u64,
    written: &Written,
    parent: Check,
) -> Check
    requires slots { layout.now.slots ≡ 32 }
    requires size { layout.now.message_size ≡ 8192 }
    requires op { (5 ≤ op) × (op ≤ 8) }
    requires shown { IsHeaderTable layout.now 7 tables.old.shown }
    requires unshown { IsHeaderTable layout.now 7 tables.old.unshown }
    ensures shown { IsHeaderTable layout.now 7 tables.new.shown }
    ensures unshown { IsHeaderTable layout.now 7 tables.new.unshown }
{
    let (boot, is_paired, left) = *written;
    let room: Raw<Prepare> = Raw::reserve(alloc, layout).expect(rt, "memory of a room");
    let header = prepare_header(op, op - 4, u64::from(boot), is_paired, parent);
    let unit = room.make(header, &[]);
    let is_told = matches!(left, Left::All | Left::Header);
    write_unit(disk, layout, &unit, tables, rt, alloc, is_told);
    let is_shown = matches!(left, Left::All | Left::Prepare);
    if !is_shown {
        assert!(rt; disk.strike(6 + 2 * op, Strike::Fill { byte: 0xa5 }).is_ok());
    }
    unit.header().checksum
}

// Writes the prepares of ops 5 to 8 after the checkpoint's, and hands back the checksum of the head, which is op 4, 5 or 6.
fn write_all(
    disk: &mut MemoryDisk,
    layout: &Layout,
    tables: &mut Tables,
    rt: &impl Abort,
    alloc: Global,
    written: &[Written; 4],
    head: u64,
) -> Check
    requires slots { layout.now.slots ≡ 32 }
    requires size { layout.now.message_size ≡ 8192 }
    requires shown { IsHeaderTable layout.now 7 tables.old.shown }
    requires unshown { IsHeaderTable layout.now 7 tables.old.unshown }
{
    let five = write(disk, layout, tables, rt, alloc, 5, &written[0], BASE);
    let six = write(disk, layout, tables, rt, alloc, 6, &written[1], five);
    let seven = write(disk, layout, tables, rt, alloc, 7, &written[2], six);
    write(disk, layout, tables, rt, alloc, 8, &written[3], seven);
    match head {
        5 => five,
        6 => six,
        _ => BASE,
    }
}

// What is found: the op that lacks; the ops of the tail and of what is reached; whether something is lost; and the decisions on the
// slots of ops 5 to 8.
type Answer = (Option<u64>, (u64, u64), bool, [Decision; 4]);

// What is found from there, where the checkpoint's prepare has this checksum, and the head that one.
fn found(
    rt: &impl Abort,
    alloc: Global,
    disk: &mut MemoryDisk,
    layout: &Layout,
    start: &Start,
    base: &Check,
    head: &Check,
) -> Answer
    requires slots { layout.now.slots ≡ 32 }
    requires clients { layout.now.clients ≡ 4 }
    requires op { start.now.op ≡ 4 }
{
    let slots = scanned_from(rt, alloc, disk, layout, start);
    let mut sessions = SessionTable::new(4);
    let reach = find_reach(layout, &slots, base, &mut sessions);
    let own = Counters {
        ring_op: bound_top(&slots, start.boot, reach.tail.op),
        ..Counters::default()
    };
    let top = reach.tail.op;
    let decided = [
        slots.planned(5, top),
        slots.planned(6, top),
        slots.planned(7, top),
        slots.planned(8, top),
    ];
    (
        lacking_known(layout, &slots, head),
        (reach.tail.op, reach.op),
        is_lost(&own, start.head, reach.tail.op),
        decided,
    )
}

const ALL: Left = Left::All;

const TAKE: Decision = Decision::Take { mend: false };

const MEND: Decision = Decision::Take { mend: true };

const EMPTY: Decision = Decision::Empty { mend: false };

const LOST: Decision = Decision::Lost;

// Prepares of boot 3 (own), of boot 2 (earlier), of boot 3 in a group of two (paired), or of version 1 (unbooted): with the header, without it
// (untold), of which the header alone is left (told), or nothing (gone).
const EARLIER: Written = (2, false, ALL);

const OWN: Written = (3, false, ALL);

const GONE: Written = (3, false, Left::Nothing);

const EARLIER_UNTOLD: Written = (2, false, Left::Prepare);

const UNTOLD: Written = (3, false, Left::Prepare);

const EARLIER_TOLD: Written = (2, false, Left::Header);

const EARLIER_GONE: Written = (2, false, Left::Nothing);

const TOLD: Written = (3, false, Left::Header);

const PAIRED_UNTOLD: Written = (3, true, Left::Prepare);

const PAIRED_GONE: Written = (3, true, Left::Nothing);

const PAIRED_TOLD: Written = (3, true, Left::Header);

const PAIRED: Written = (3, true, ALL);

const UNBOOTED: Written = (0, false, ALL);

const UNBOOTED_UNTOLD: Written = (0, false, Left::Prepare);

const UNBOOTED_GONE: Written = (0, false, Left::Nothing);

const UNBOOTED_TOLD: Written = (0, false, Left::Header);

// Four prepares, of ops 5 to 8, with what is left of each; the checksum that the checkpoint's prepare is said to have; and what is
// found. Where nothing is left of a prepare, its header was never written.
type Row = (&'static str, [Written; 4], Check, Answer);

// With head 6 and boot 3.
const ROWS: [Row; 11] = [
    (
        "both named ones and one above",
        [EARLIER, OWN, OWN, GONE],
        BASE,
        (None, (7, 7), false, [TAKE, TAKE, TAKE, EMPTY]),
    ),
    (
        "the same without headers",
        [EARLIER_UNTOLD, UNTOLD, UNTOLD, GONE],
        BASE,
        (None, (7, 7), false, [MEND, MEND, MEND, EMPTY]),
    ),
    (
        "the first named one is lost",
        [EARLIER_TOLD, OWN, OWN, GONE],
        BASE,
        (Some(5), (4, 4), true, [LOST, TAKE, TAKE, EMPTY]),
    ),
    (
        "both named ones are lost",
        [EARLIER_GONE, GONE, OWN, GONE],
        BASE,
        (Some(6), (4, 4), true, [LOST, LOST, TAKE, EMPTY]),
    ),
    (
        "the first named one doesn't fit",
        [EARLIER, OWN, GONE, GONE],
        [9; 16],
        (None, (4, 4), true, [TAKE, TAKE, EMPTY, EMPTY]),
    ),
    (
        "above them one of an earlier boot",
        [EARLIER, OWN, EARLIER, GONE],
        BASE,
        (None, (6, 6), false, [TAKE, TAKE, EMPTY, EMPTY]),
    ),
    (
        "above them a header alone",
        [EARLIER, OWN, TOLD, GONE],
        BASE,
        (None, (6, 6), true, [TAKE, TAKE, LOST, EMPTY]),
    ),
    (
        "a whole group without headers",
        [EARLIER, OWN, PAIRED_UNTOLD, PAIRED_UNTOLD],
        BASE,
        (None, (8, 8), false, [TAKE, TAKE, MEND, MEND]),
    ),
    (
        "the first of a group alone survives",
        [EARLIER, OWN, PAIRED_UNTOLD, PAIRED_GONE],
        BASE,
        (None, (6, 7), false, [TAKE, TAKE, EMPTY, EMPTY]),
    ),
    (
        "the last of a group alone survives",
        [EARLIER, OWN, PAIRED_GONE, PAIRED_UNTOLD],
        BASE,
        (None, (6, 6), false, [TAKE, TAKE, EMPTY, EMPTY]),
    ),
    (
        "a group was cut off and a header of it is shown",
        [EARLIER, OWN, PAIRED_UNTOLD, PAIRED_TOLD],
        BASE,
        (None, (6, 7), true, [TAKE, TAKE, EMPTY, LOST]),
    ),
];

// With head 5 and boot 3.
const WITHIN: Row = (
    "the named head is the first of a group",
    [PAIRED, PAIRED, GONE, GONE],
    BASE,
    (None, (4, 4), true, [TAKE, TAKE, EMPTY, EMPTY]),
);

// Of version 1, whose superblock names none: with head 4 and boot 0.
const FIRST: [Row; 2] = [
    (
        "all of version 1",
        [UNBOOTED, UNBOOTED, UNBOOTED_UNTOLD, UNBOOTED_GONE],
        BASE,
        (None, (7, 7), false, [TAKE, TAKE, MEND, EMPTY]),
    ),
    (
        "the second is lost",
        [UNBOOTED, UNBOOTED_TOLD, UNBOOTED, UNBOOTED_GONE],
        BASE,
        (None, (5, 5), true, [TAKE, LOST, TAKE, EMPTY]),
    ),
];

// Asserts what is found of a row where the superblock has this head and this boot.
fn assert_row(rt: &impl Abort, alloc: Global, row: &Row, head: u64, boot: u64) {
    let layout = Layout::small();
    let (name, written, base, answer) = row;
    let mut disk = blank(alloc);
    let mut tables = Tables {
        shown: reserved_table(alloc, &layout).expect(rt, "memory of a table"),
        unshown: reserved_table(alloc, &layout).expect(rt, "memory of a table"),
    };
    write_ring(rt, alloc, &mut disk, &layout, &tables.shown);
    let named = write_all(&mut disk, &layout, &mut tables, rt, alloc, written, head);
    let start = Start {
        cluster: 7,
        op: 4,
        head,
        boot,
    };
    let (lacking, reach, lost, decided) = found(
        rt, alloc, &mut disk, &layout, &start, base, &named,
    );
    let (wanted_lacking, wanted_reach, wanted_lost, wanted_decided) = answer;
    assert!(rt; lacking == *wanted_lacking, "{name}");
    assert!(rt;
        (reach.0, reach.1, lost) == (wanted_reach.0, wanted_reach.1, *wanted_lost),
        "{name}"
    );
    assert!(rt; decided == *wanted_decided, "{name}");
}

#[test]
fn named_prepares_and_groups_are_found(rt: HostRuntime) {
    for row in &ROWS {
        assert_row(&rt, rt.alloc(), row, 6, 3);
    }
    assert_row(&rt, rt.alloc(), &WITHIN, 5, 3);
}

#[test]
fn a_file_of_version_1_names_none(rt: HostRuntime) {
    for row in &FIRST {
        assert_row(&rt, rt.alloc(), row, 4, 0);
    }
}
