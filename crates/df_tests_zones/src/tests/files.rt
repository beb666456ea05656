// What the tests of the rings share: prepares of a small file of cluster 7, and scans.
ghost use Rattle.std.specs.Prelude.{◌≡◌, ◌≤◌, ◌<◌, ◌+◌, ◌^◌, [], length, OnOk, IsSome};
ghost use Rattle.df_layout.specs.declared.layout.Layout.{Layout as AnyLayout};
ghost use Rattle.df_journal.specs.Shows.{IsSeenTable};
ghost use Rattle.df_format.specs.{Making.{for_body}, Own.{own_place}, Rules.{ObeysRules}};

use df_base::{Check, Failed, check};
use df_buffers::{HeaderSector, Prepare, Raw, SlotSeen};
use df_format::{Header, Kind};
use df_journal::{SlotTable, Start, scan};
use df_layout::{Class, Layout, Zone};
use df_memdisk::MemoryDisk;
use std::alloc::Global;
use std::process::Abort;

// The first and the last op of a group: of one prepare by itself, or of two, that of an odd op and the next.
fn group_of(op: u64, is_paired: bool) -> (u64, u64)
    requires { (1 ≤ op) × (op ≤ 1000) }
    ensures first { (0 < result.0) × (result.0 ≤ op) }
    ensures last { (op ≤ result.1) × (result.1 ≤ result.0 + 1) }
{
    if !is_paired {
        (op, op)
    } else if op % 2 == 0 {
        (op - 1, op)
    } else {
        (op, op + 1)
    }
}

// The header of a prepare of client 5, as its maker gives it: in boot 0 it is of version 1, and else of version 2, by itself or in a
// group of two.
#[tactic(auto, unfolding(df_format::specs::Own::own_place, df_format::specs::Spelling::no_checksum))]
pub(crate) fn prepare_header(
    op: u64,
    request: u64,
    boot: u64,
    is_paired: bool,
    parent: Check,
) -> Header
    requires small { (1 ≤ op) × (op ≤ 1000) × (1 ≤ request) × (request ≤ 1000) × (boot ≤ 1000) }
    ensures sealed { ObeysRules result }
    ensures rules { ObeysRules (for_body result []) }
    ensures kind { result.kind ≡ Kind.Prepare }
    ensures cluster { result.cluster ≡ 7 }
    ensures slot { result.slot ≤ 31 }
    ensures own { (layout : AnyLayout) → layout.slots ≡ 32 → IsSome (own_place layout Zone.WalPrepares result) }
{
    let (group, group_last) = group_of(op, is_paired);
    let first = Header {
        checksum_body: check(&[]),
        parent: if op == 1 { [0; 16] } else { parent },
        client: 5,
        op,
        request,
        mark: op - 1,
        checkpoint: 1,
        size: 256,
        slot: (op % 32) as u32,
        ..Header::of(Kind::Prepare, 7)
    };
    if boot == 0 {
        first
    } else {
        Header {
            version: 2,
            boot,
            group,
            group_last,
            ..first
        }
    }
}

// A blank disk in memory.
pub(crate) fn blank(alloc: Global) -> MemoryDisk {
    MemoryDisk::new(alloc, Vec::new(alloc))
}

// A scan that starts there: the table, and how it ended.
pub(crate) fn tried_from(
    rt: &impl Abort,
    alloc: Global,
    disk: &mut MemoryDisk,
    layout: &Layout,
    start: &Start,
) -> (SlotTable, Result<(), Failed>)
    requires { start.now.op ≤ 2 ^ 62 }
    ensures count { length result.0.slots ≡ layout.now.slots }
    ensures start { result.0.start ≡ start.now }
    ensures table { OnOk result.1 (IsSeenTable layout.now result.0.start.cluster result.0.slots) }
{
    let blank = SlotSeen {
        header: Err(Class::Garbled),
        prepare: Err(Class::Garbled),
    };
    let slots = vec![in alloc; blank; layout.slots as usize].expect(rt, "memory of a table");
    let mut found = SlotTable::over(slots);
    let mut sector: Raw<HeaderSector> = Raw::reserve(alloc, layout).expect(
        rt,
        "memory of a sector",
    );
    let room: Raw<Prepare> = Raw::reserve(alloc, layout).expect(rt, "memory of a room");
    let (_, done) = scan(disk, layout, start, &mut found, &mut sector, room);
    (found, done)
}

// What a scan that starts there sees.
pub(crate) fn scanned_from(
    rt: &impl Abort,
    alloc: Global,
    disk: &mut MemoryDisk,
    layout: &Layout,
    start: &Start,
) -> SlotTable
    requires { start.now.op ≤ 2 ^ 62 }
    ensures count { length result.slots ≡ layout.now.slots }
    ensures start { result.start ≡ start.now }
    ensures table { IsSeenTable layout.now result.start.cluster result.slots }
{
    let (found, done) = tried_from(rt, alloc, disk, layout, start);
    done.expect(rt, "a disk whose calls all succeed");
    found
}

// A scan after a checkpoint with this op, in this boot: the table, and how it ended.
pub(crate) fn tried(
    rt: &impl Abort,
    alloc: Global,
    disk: &mut MemoryDisk,
    layout: &Layout,
    op: u64,
    boot: u64,
) -> (SlotTable, Result<(), Failed>)
    requires { op ≤ 2 ^ 62 }
    ensures count { length result.0.slots ≡ layout.now.slots }
    ensures table { OnOk result.1 (IsSeenTable layout.now result.0.start.cluster result.0.slots) }
{
    let start = Start {
        cluster: 7,
        op,
        head: op,
        boot,
    };
    tried_from(rt, alloc, disk, layout, &start)
}

// What a scan after an empty checkpoint sees, in this boot.
pub(crate) fn scanned(
    rt: &impl Abort,
    alloc: Global,
    disk: &mut MemoryDisk,
    layout: &Layout,
    boot: u64,
) -> SlotTable
    ensures count { length result.slots ≡ layout.now.slots }
    ensures table { IsSeenTable layout.now result.start.cluster result.slots }
{
    let (found, done) = tried(rt, alloc, disk, layout, 0, boot);
    done.expect(rt, "a disk whose calls all succeed");
    found
}
