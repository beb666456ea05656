// What an open reads of a file: after the barrier the four copies of the superblock, the trailer, both rings and the reply slots.
ghost use Rattle.std.specs.Prelude.{◌≡◌, ◌≤◌, IfOk, IfErr, OnOk};
ghost use Rattle.df_base.specs.declared.TheConstants.{GREATEST};
ghost use Rattle.df_recovery.specs.{Below.{AreFieldsOf, HasCause, IsBlamed, is_open_fault}, Found.{Syncs}};
ghost use Rattle.df_recovery.specs.Scanning.{AreCopies, AreRoomsOf, AreScanned, FitsFile, IsScanAs, IsServed, ReadsBehind, TellsReadAs, without_rooms};

use crate::checkpoint::{Checkpoint, read_checkpoint};
use crate::superblock::superblock_of;
use crate::{Found, OpenError, Scanned};
use df_base::Failed;
use df_disk::Disk;
use df_format::Super;
use df_journal::{Start, scan_shelf};
use df_layout::Layout;
use df_quorum::Slot;
use df_rooms::{DataFile, FileRooms, LogRooms, Rooms};
use df_superblock::read_all;

/// The superblock of a file, and what the four places of its copies show.
#[derive(Clone, Copy, Debug, PartialEq, Eq)]
pub struct Copies {
    pub found: Found,
    pub slots: [Slot; 4],
}

// Finds the superblock, after a sync that makes durable whatever an earlier call left loose, where rooms of the layout serve its
// file.
fn find_served<D: Disk>(
    disk: &mut D,
    layout: &Layout,
    rooms: &mut LogRooms,
    version: u32,
) -> Result<Copies, OpenError>
    ensures copies { IfOk result (AreCopies version (D.told disk.old)) }
    ensures rooms { rooms.new.layout ≡ rooms.old.layout }
    ensures served { IfOk result (λ copies. IsServed layout.now copies.found.content) }
    ensures answer { TellsReadAs version (λ copies. copies.found) layout.now (D.told disk.old) result }
    ensures barrier { Syncs (D.told disk.old) (D.told disk.new) result }
    ensures cause { IsBlamed is_open_fault (D.faults disk.old) (D.faults disk.new) result }
{
    match disk.sync() {
        Ok(()) => {}
        Err(_) => return Err(OpenError::DiskFault),
    }
    let slots = match read_all(disk, &mut rooms.superblock) {
        Ok(slots) => slots,
        Err(_) => return Err(OpenError::DiskFault),
    };
    let found = superblock_of(&slots, version)?;
    let there = found.content.layout();
    if there != *layout {
        return Err(OpenError::LayoutDiffers {
            reserved: *layout,
            found: there,
        });
    }
    Ok(Copies { found, slots })
}

// Scans the rings and then the reply slots into the tables of the rooms, which are lent.
fn scan_zones<D: Disk>(disk: &mut D, start: &Start, rooms: &mut LogRooms) -> Result<(), Failed>
    requires op { start.now.op ≤ GREATEST }
    ensures scanned { OnOk result (AreScanned rooms.old.layout start.now.cluster (D.told disk.old) rooms.new.slots rooms.new.replies) }
    ensures start { rooms.new.slots.start ≡ start.now }
    ensures rooms { rooms.new.layout ≡ rooms.old.layout }
    ensures same { D.told disk.new ≡ D.told disk.old }
    ensures cause { HasCause (D.faults disk.old) (D.faults disk.new) result }
{
    let layout = rooms.layout;
    scan_shelf(
        disk,
        &layout,
        start,
        &mut rooms.slots,
        &mut rooms.sector,
        &mut rooms.prepare,
    )?;
    rooms
        .replies
        .scan(disk, &layout, start.cluster, &mut rooms.reply)
}

// Reads what stands after a superblock: its checkpoint, and then the rings and the reply slots.
fn read_behind<D: Disk>(
    disk: &mut D,
    file: &DataFile,
    content: &Super,
    rooms: &mut FileRooms,
) -> Result<Checkpoint, OpenError>
    requires rooms { AreRoomsOf file.now rooms.old.grid rooms.old.layout }
    requires file { AreFieldsOf file.now.layout file.now.cluster content.now }
    ensures reads { ReadsBehind file.now (D.told disk.old) content.now rooms.new result }
    ensures fits { FitsFile file.now rooms.new.grid rooms.new.layout }
    ensures same { D.told disk.new ≡ D.told disk.old }
    ensures cause { IsBlamed is_open_fault (D.faults disk.old) (D.faults disk.new) result }
{
    let base = read_checkpoint(disk, file, content, &mut rooms.grid, &mut rooms.trailer)?;
    match scan_zones(disk, &Start::of(content.fields()), &mut rooms.log) {
        Ok(()) => Ok(base),
        Err(_) => Err(OpenError::DiskFault),
    }
}

/// Makes durable whatever an earlier call left loose, finds the superblock, where this version is asked for, and where the rooms
/// serve its file reads each block of the trailer twice, and each sector of the header ring, each slot of the ring of prepares and
/// each reply slot once. The rooms come back with a refusal: one of the superblock, `LayoutDiffers`, or one of the trailer.
pub fn scan_file<D: Disk>(
    disk: &mut D,
    rooms: Rooms,
    version: u32,
) -> Result<Scanned, (Rooms, OpenError)>
    ensures scanned { IfOk result (IsScanAs version rooms.layout (D.told disk.old)) }
    ensures given_back { IfErr result (λ refused. refused.0.layout ≡ rooms.layout) }
    ensures answer { TellsReadAs version (λ s. s.copies.found) rooms.layout (D.told disk.old) (without_rooms result) }
    ensures barrier { Syncs (D.told disk.old) (D.told disk.new) (without_rooms result) }
    ensures cause { IsBlamed is_open_fault (D.faults disk.old) (D.faults disk.new) (without_rooms result) }
{
    let mut rooms = rooms;
    let layout = rooms.layout;
    let copies = match find_served(disk, &layout, &mut rooms.log, version) {
        Ok(copies) => copies,
        Err(refusal) => return Err((rooms, refusal)),
    };
    let content = &copies.found.content;
    let file = DataFile {
        layout,
        cluster: content.fields().cluster,
        version: content.fields().version,
    };
    let mut rooms = rooms.into_file(file.cluster);
    match read_behind(disk, &file, content, &mut rooms) {
        Ok(Checkpoint { root, sessions }) => Ok(Scanned {
            file,
            copies,
            rooms,
            root,
            sessions,
        }),
        Err(refusal) => Err((rooms.into_rooms(), refusal)),
    }
}
