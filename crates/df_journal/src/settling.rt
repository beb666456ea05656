// The settling of what was put: a sync, so that a header never stands before its prepare, then the header sectors, and a sync.
ghost use Rattle.std.specs.Prelude.{◌≡◌, ℕ};
ghost use Rattle.df_journal.specs.{Below.{HasCause, Adds, AreSteps, format_of, AreOfRing, IsHeaderTable, sector_writes}, Append.{settle_events, settle_steps}};

use df_base::Failed;
use df_buffers::{HeaderSector, Raw};
use df_disk::Disk;
use df_headers::HeaderTable;

// Writes these sectors of the table, in order and without a sync.
fn write_sectors<D: Disk>(
    disk: &mut D,
    sectors: &[u32],
    table: &HeaderTable,
    room: &mut Raw<HeaderSector>,
) -> Result<(), Failed>
    requires table { (cluster : ℕ) × IsHeaderTable room.old.layout cluster table.now }
    requires sectors { AreOfRing room.old.layout sectors.now }
    ensures events { Adds (sector_writes room.old.layout table.now sectors.now) (D.told disk.old) (D.told disk.new) result }
    ensures room { room.new.layout ≡ room.old.layout }
    ensures cause { HasCause (D.faults disk.old) (D.faults disk.new) result }
{
    let mut i = 0;
    while i < sectors.len() {
        table.write_sector(disk, room, sectors[i])?;
        i += 1;
    }
    Ok(())
}

/// Makes durable what was put, and then its headers: a sync, each of these sectors of the table, in order, and a sync. Sectors
/// are counted from the ring's first one; the table is one of the room's layout. After an error they may hold anything once the
/// machine stops, and where the first sync failed, so may what was put.
pub fn settle<D: Disk>(
    disk: &mut D,
    table: &HeaderTable,
    room: &mut Raw<HeaderSector>,
    sectors: &[u32],
) -> Result<(), Failed>
    requires table { (cluster : ℕ) × IsHeaderTable room.old.layout cluster table.now }
    requires sectors { AreOfRing room.old.layout sectors.now }
    ensures events { Adds (settle_events room.old.layout table.now sectors.now) (D.told disk.old) (D.told disk.new) result }
    ensures steps { (cluster : ℕ) → IsHeaderTable room.old.layout cluster table.now
        → AreSteps (format_of room.old.layout cluster) (settle_events room.old.layout table.now sectors.now) (settle_steps table.now sectors.now) }
    ensures room { room.new.layout ≡ room.old.layout }
    ensures cause { HasCause (D.faults disk.old) (D.faults disk.new) result }
{
    disk.sync()?;
    write_sectors(disk, sectors, table, room)?;
    disk.sync()
}
