// The flush of a group of prepares: each is put, and its header noted in the table, and then all are settled. No header stands before the last
// prepare of its group is durable, so that a stop leaves the whole group or none of it.
ghost use Rattle.std.specs.Prelude.{◌≡◌, ◌<◌, ◌/◌, ℕ, length, slice_get, Some, OnOk};
ghost use Rattle.df_buffers.specs.Sounds.{Holding};
ghost use Rattle.df_journal.specs.{Below.{HasCause, EachMoment, Told, Adds, AreSteps, format_of, AreOfRing, IsHeaderTable}, Append.{settle_events}};
ghost use Rattle.df_journal.specs.Flush.{AreOwn, EndsFlushed, LeavesGroup, MayFlushOn, MayPutGroup, first_slot, flush_events, flush_steps, group_puts, held_prepares, last_slot, sectors_between, with_headers};

use crate::appends::put;
use crate::settling::settle;
use df_base::Failed;
use df_buffers::{HeaderSector, Prepare, Raw, Sound};
use df_disk::Disk;
use df_headers::HeaderTable;
use df_layout::{Layout, SECTOR_HEADERS};
use df_prepares::stands_in_slot;

// Each prepare is valid in the slot that its header names, and its sectors bring it there, as its type says.
fn are_own(layout: &Layout, group: &[Sound<Prepare>])
    requires { (i : ℕ) (held : Holding) → slice_get group.now i ≡ Some held → held.layout ≡ layout.now }
    ensures { AreOwn layout.now group.now }
{
    let mut i = 0;
    while i < group.len() {
        stands_in_slot(layout, &group[i]);
        i += 1;
    }
}

// Puts the prepares into their slots and their headers into the table, in order and without a sync.
fn put_all<D: Disk>(
    disk: &mut D,
    layout: &Layout,
    group: &[Sound<Prepare>],
    table: &mut HeaderTable,
) -> Result<(), Failed>
    requires { (cluster : ℕ) × MayPutGroup layout.now cluster group.now table.old }
    ensures events { Adds (group_puts layout.now group.now) (D.told disk.old) (D.told disk.new) result }
    ensures table { OnOk result (table.new ≡ with_headers (held_prepares group.now) table.old) }
    ensures valid { (cluster : ℕ) → MayPutGroup layout.now cluster group.now table.old → IsHeaderTable layout.now cluster table.new }
    ensures cause { HasCause (D.faults disk.old) (D.faults disk.new) result }
{
    let mut i = 0;
    while i < group.len() {
        put(disk, layout, &group[i], table)?;
        i += 1;
    }
    Ok(())
}

// Settles two sectors of the table, or one where they are the same.
fn settle_between<D: Disk>(
    disk: &mut D,
    table: &HeaderTable,
    room: &mut Raw<HeaderSector>,
    first: u32,
    last: u32,
) -> Result<(), Failed>
    requires table { (cluster : ℕ) × IsHeaderTable room.old.layout cluster table.now }
    requires sectors { AreOfRing room.old.layout (sectors_between first last) }
    ensures events { Adds (settle_events room.old.layout table.now (sectors_between first last)) (D.told disk.old) (D.told disk.new) result }
    ensures room { room.new.layout ≡ room.old.layout }
    ensures cause { HasCause (D.faults disk.old) (D.faults disk.new) result }
{
    if first == last {
        settle(disk, table, room, &[first])
    } else {
        settle(disk, table, room, &[first, last])
    }
}

// The header sectors of the first and of the last of these prepares.
fn ends(group: &[Sound<Prepare>]) -> (u32, u32)
    requires { 0 < length group.now }
    ensures first { result.0 ≡ first_slot (held_prepares group.now) / 16 }
    ensures last { result.1 ≡ last_slot 0 (held_prepares group.now) / 16 }
{
    let first = group[0].header().slot / SECTOR_HEADERS;
    let last = group[group.len() - 1].header().slot / SECTOR_HEADERS;
    (first, last)
}

/// Puts the prepares of a group into their slots, in order of op, and their headers into the table, and makes all durable: the
/// prepares, a sync, the one or two sectors of their headers, a sync. The table and the rooms are ones of the layout. After an
/// error the slots and the sectors may hold anything once the machine stops, and the table may have some of the new headers.
pub fn flush<D: Disk>(
    disk: &mut D,
    layout: &Layout,
    group: &[Sound<Prepare>],
    table: &mut HeaderTable,
    room: &mut Raw<HeaderSector>,
) -> Result<(), Failed>
    requires some { 0 < length group.now }
    requires may { (cluster : ℕ) × MayPutGroup layout.now cluster group.now table.old }
    requires room { room.old.layout ≡ layout.now }
    ensures events { Adds (flush_events layout.now group.now table.old) (D.told disk.old) (D.told disk.new) result }
    ensures steps { (cluster : ℕ) → MayPutGroup layout.now cluster group.now table.old
        → AreSteps (format_of layout.now cluster) (flush_events layout.now group.now table.old) (flush_steps (held_prepares group.now) table.old) }
    ensures moments { (cluster : ℕ) (before after : Told) → MayPutGroup layout.now cluster group.now table.old → D.told disk.old ≡ Some before → D.told disk.new ≡ Some after
        → (may : MayFlushOn layout.now cluster (held_prepares group.now) table.old before) → EachMoment before.log after.log (LeavesGroup layout.now cluster (held_prepares group.now) table.old before may) }
    ensures flushed { (cluster : ℕ) (before after : Told) → MayPutGroup layout.now cluster group.now table.old → D.told disk.old ≡ Some before → D.told disk.new ≡ Some after
        → (may : MayFlushOn layout.now cluster (held_prepares group.now) table.old before) → OnOk result (EndsFlushed layout.now cluster (held_prepares group.now) table.old before may after table.new) }
    ensures table { OnOk result (table.new ≡ with_headers (held_prepares group.now) table.old) }
    ensures valid { (cluster : ℕ) → MayPutGroup layout.now cluster group.now table.old → IsHeaderTable layout.now cluster table.new }
    ensures room { room.new.layout ≡ layout.now }
    ensures own { AreOwn layout.now group.now }
    ensures cause { HasCause (D.faults disk.old) (D.faults disk.new) result }
{
    are_own(layout, group);
    put_all(disk, layout, group, table)?;
    let (first, last) = ends(group);
    settle_between(disk, table, room, first, last)
}
