// How a file is made: reserved headers in each sector of the header ring, a sync, and the four copies of the first superblock, on
// a disk that is blank where the copies stand. A header ring without a superblock is no file, so the copies come last.
ghost use Rattle.std.specs.Prelude.{◌≡◌, ◌<◌, ◌∷◌, length};
ghost use Rattle.df_opening.specs.{Below.{HasCause, IsBlamed, Sync, Adds, first_super, IsUsable, update_events, header_writes, is_format_fault}, Formatting.{RefusesCluster, TellsBlank}};
ghost use Rattle.df_opening.specs.Making.{AreWritable, FormatsFile, file_events, making_events, sectors_in};

use crate::first::first_superblock;
use crate::{FormatError, LogRooms, Rooms};
use df_base::Failed;
use df_buffers::{HeaderSector, ProbeRoom, Raw};
use df_disk::Disk;
use df_format::Super;
use df_headers::HeaderTable;
use df_layout::{Layout, SECTOR_HEADERS};
use df_superblock::{first_written, read_all, write_copies};

/// Tests whether the sectors of the copies hold zeros alone, and refuses with the first that doesn't. Nothing is written.
pub fn test_blank<D: Disk>(disk: &mut D, room: &mut ProbeRoom) -> Result<(), FormatError>
    ensures blank { TellsBlank (D.told disk.old) result }
    ensures cluster { RefusesCluster 1 result }
    ensures same { D.told disk.new ≡ D.told disk.old }
    ensures cause { IsBlamed is_format_fault (D.faults disk.old) (D.faults disk.new) result }
{
    match read_all(disk, room) {
        Ok(copies) => match first_written(&copies) {
            Some(copy) => Err(FormatError::NotBlank { copy }),
            None => Ok(()),
        },
        Err(_) => Err(FormatError::DiskFault),
    }
}

/// Writes each sector of the header ring from the table, in order and without a sync: until the next one a stop may leave anything in them.
pub fn write_headers<D: Disk>(
    disk: &mut D,
    layout: &Layout,
    headers: &HeaderTable,
    room: &mut Raw<HeaderSector>,
) -> Result<(), Failed>
    requires table { length headers.now ≡ layout.now.slots }
    requires sealed { AreWritable layout.now headers.now }
    requires room { room.old.layout ≡ layout.now }
    ensures events { Adds (header_writes layout.now 0 (sectors_in layout.now headers.now)) (D.told disk.old) (D.told disk.new) result }
    ensures room { room.new.layout ≡ layout.now }
    ensures cause { HasCause (D.faults disk.old) (D.faults disk.new) result }
{
    let mut sector = 0;
    while sector < layout.slots / SECTOR_HEADERS {
        match headers.write_sector(disk, room, sector) {
            Ok(()) => sector += 1,
            Err(failed) => return Err(failed),
        }
    }
    Ok(())
}

/// Syncs, so that all that was written before is durable, and then writes the copies 0, 1, 2 and 3, each durable before the next one is
/// written. After an error some of the copies, from copy 0 on, may have been written.
pub fn write_synced<D: Disk>(
    disk: &mut D,
    superblock: &mut ProbeRoom,
    content: &Super,
) -> Result<(), Failed>
    ensures events { Adds (Sync ∷ update_events content.now) (D.told disk.old) (D.told disk.new) result }
    ensures cause { HasCause (D.faults disk.old) (D.faults disk.new) result }
{
    disk.sync()?;
    write_copies(disk, superblock, content)
}

// Writes the header ring, syncs, and writes the four copies.
fn write_file<D: Disk>(
    disk: &mut D,
    layout: &Layout,
    headers: &HeaderTable,
    sector: &mut Raw<HeaderSector>,
    superblock: &mut ProbeRoom,
    content: &Super,
) -> Result<(), Failed>
    requires table { length headers.now ≡ layout.now.slots }
    requires sealed { AreWritable layout.now headers.now }
    requires room { sector.old.layout ≡ layout.now }
    ensures events { Adds (file_events layout.now headers.now content.now) (D.told disk.old) (D.told disk.new) result }
    ensures room { sector.new.layout ≡ layout.now }
    ensures cause { HasCause (D.faults disk.old) (D.faults disk.new) result }
{
    match write_headers(disk, layout, headers, sector) {
        Ok(()) => write_synced(disk, superblock, content),
        Err(failed) => Err(failed),
    }
}

// Makes the file, of a cluster that isn't 0 on a disk that is blank where the copies stand.
fn make_file<D: Disk>(
    disk: &mut D,
    rooms: &mut LogRooms,
    cluster: u128,
    content: &Super,
) -> Result<(), Failed>
    requires content { content.now ≡ first_super rooms.old.layout cluster }
    requires usable { IsUsable content.now }
    ensures events { Adds (making_events rooms.old.layout cluster) (D.told disk.old) (D.told disk.new) result }
    ensures layout { rooms.new.layout ≡ rooms.old.layout }
    ensures cause { HasCause (D.faults disk.old) (D.faults disk.new) result }
{
    let layout = rooms.layout;
    rooms.headers.clear(cluster);
    write_file(
        disk,
        &layout,
        &rooms.headers,
        &mut rooms.sector,
        &mut rooms.superblock,
        content,
    )
}

// Makes the file, unless a sector of the copies holds a byte other than zero.
fn make_on_blank<D: Disk>(
    disk: &mut D,
    rooms: &mut LogRooms,
    cluster: u128,
    content: &Super,
) -> Result<(), FormatError>
    requires named { 0 < cluster }
    requires content { content.now ≡ first_super rooms.old.layout cluster }
    ensures formats { FormatsFile rooms.old.layout cluster (D.told disk.old) (D.told disk.new) result }
    ensures cause { IsBlamed is_format_fault (D.faults disk.old) (D.faults disk.new) result }
    ensures layout { rooms.new.layout ≡ rooms.old.layout }
{
    // Its fields obey their rules.
    let _fields = content.fields();
    match test_blank(disk, &mut rooms.superblock) {
        Ok(()) => match make_file(disk, rooms, cluster, content) {
            Ok(()) => Ok(()),
            Err(_) => Err(FormatError::DiskFault),
        },
        Err(refusal) => Err(refusal),
    }
}

/// Makes a file of the rooms' layout on a disk whose superblock sectors show zeros alone: writes each sector of the header ring
/// with reserved headers, syncs, and writes the copies 0, 1, 2 and 3 of the first superblock, each durable before the next one
/// is written. Refuses cluster 0, and then a disk that isn't blank, with nothing written. After a fault the file may be written
/// in part.
pub fn format<D: Disk>(disk: &mut D, rooms: &mut Rooms, cluster: u128) -> Result<(), FormatError>
    ensures formats { FormatsFile rooms.old.layout cluster (D.told disk.old) (D.told disk.new) result }
    ensures cause { IsBlamed is_format_fault (D.faults disk.old) (D.faults disk.new) result }
    ensures layout { rooms.new.layout ≡ rooms.old.layout }
{
    match first_superblock(&rooms.layout, cluster) {
        Some(content) => make_on_blank(disk, &mut rooms.log, cluster, &content),
        None => Err(FormatError::ClusterZero),
    }
}
