// The scan: each sector of the header ring and each slot of the ring of prepares is read once, into one room each, which are lent.
ghost use Rattle.std.specs.Prelude.{◌≡◌, ◌<◌, ◌≤◌, length, IfOk, OnOk};
ghost use Rattle.df_base.specs.declared.TheConstants.{GREATEST};
ghost use Rattle.df_journal.specs.{Below.{HasCause, place_in}, Shows.{IsSlot}, Scanned.{ClassIsShown, HoldsSector, IsHeld, IsScanned, IsSlotSeen, RingsAreShown}};

use crate::{SlotTable, Start};
use df_base::Failed;
use df_buffers::{HeaderSector, Identity, Prepare, Raw, SlotSeen, Wanted};
use df_disk::Disk;
use df_headers::read_sector;
use df_layout::{Layout, Place, SECTOR_HEADERS, Zone};
use df_places::Shelf;

fn place_in(zone: Zone, slot: u32) -> Place
    ensures { result ≡ place_in zone slot }
{
    Place {
        zone,
        index: u64::from(slot),
    }
}

// What both rings show at a slot, whose header sector was read.
fn scan_slot<D: Disk>(
    disk: &mut D,
    layout: &Layout,
    cluster: u128,
    slot: u32,
    sector: &Raw<HeaderSector>,
    shelf: &mut Shelf<Prepare>,
) -> Result<SlotSeen, Failed>
    requires slot { slot < layout.now.slots }
    requires sector { HoldsSector layout.now (D.told disk.old) slot sector.now.bytes }
    requires shelf { shelf.old.layout ≡ layout.now }
    ensures seen { IfOk result (IsSlotSeen layout.now cluster (D.told disk.old) slot) }
    ensures valid { IfOk result (IsSlot layout.now cluster slot) }
    ensures shelf { shelf.new.layout ≡ layout.now }
    ensures same { D.told disk.new ≡ D.told disk.old }
    ensures cause { HasCause (D.faults disk.old) (D.faults disk.new) result }
{
    let identity = Identity {
        layout: *layout,
        cluster,
        place: place_in(Zone::WalHeaders, slot),
        wanted: Wanted::Any,
    };
    let header = sector.header_at(u64::from(slot % SECTOR_HEADERS), &identity);
    let prepare = shelf.see(disk, cluster, place_in(Zone::WalPrepares, slot))?;
    Ok(SlotSeen { header, prepare })
}

// Reads the header sector of a slot, where the slot is the first of its sixteen: else it was read for the slot before.
fn hold_sector<D: Disk>(
    disk: &mut D,
    layout: &Layout,
    slot: u32,
    sector: &mut Raw<HeaderSector>,
) -> Result<(), Failed>
    requires slot { slot < layout.now.slots }
    requires held { IsHeld layout.now (D.told disk.old) slot sector.old.bytes }
    ensures holds { OnOk result (HoldsSector layout.now (D.told disk.old) slot sector.new.bytes) }
    ensures sector { sector.new.layout ≡ sector.old.layout }
    ensures same { D.told disk.new ≡ D.told disk.old }
    ensures cause { HasCause (D.faults disk.old) (D.faults disk.new) result }
{
    if slot % SECTOR_HEADERS == 0 {
        read_sector(disk, sector, slot / SECTOR_HEADERS)
    } else {
        Ok(())
    }
}

/// Fills the table with what the two rings of a file show after a checkpoint: one device call for each header sector and
/// for each slot, whose prepare is read onto the shelf. The table and the rooms are ones of the layout. After an error the
/// table holds any entries.
pub fn scan_shelf<D: Disk>(
    disk: &mut D,
    layout: &Layout,
    start: &Start,
    found: &mut SlotTable,
    sector: &mut Raw<HeaderSector>,
    shelf: &mut Shelf<Prepare>,
) -> Result<(), Failed>
    requires op { start.now.op ≤ GREATEST }
    requires table { length found.old.slots ≡ layout.now.slots }
    requires shelf { shelf.old.layout ≡ layout.now }
    ensures scanned { OnOk result (IsScanned layout.now (D.told disk.old) found.new) }
    ensures start { found.new.start ≡ start.now }
    ensures table { length found.new.slots ≡ layout.now.slots }
    ensures shelf { shelf.new.layout ≡ layout.now }
    ensures sector { sector.new.layout ≡ sector.old.layout }
    ensures same { D.told disk.new ≡ D.told disk.old }
    ensures cause { HasCause (D.faults disk.old) (D.faults disk.new) result }
{
    found.begin(start);
    let mut slot = 0;
    while slot < layout.slots {
        hold_sector(disk, layout, slot, sector)?;
        let seen = scan_slot(disk, layout, start.cluster, slot, sector, shelf)?;
        found.set(slot, seen);
        slot += 1;
    }
    Ok(())
}

/// The same with a room of prepares, which comes back with either result.
pub fn scan<D: Disk>(
    disk: &mut D,
    layout: &Layout,
    start: &Start,
    found: &mut SlotTable,
    sector: &mut Raw<HeaderSector>,
    room: Raw<Prepare>,
) -> (Raw<Prepare>, Result<(), Failed>)
    requires op { start.now.op ≤ GREATEST }
    requires table { length found.old.slots ≡ layout.now.slots }
    requires room { room.layout ≡ layout.now }
    ensures scanned { OnOk result.1 (IsScanned layout.now (D.told disk.old) found.new) }
    ensures start { found.new.start ≡ start.now }
    ensures table { length found.new.slots ≡ layout.now.slots }
    ensures room { result.0.layout ≡ layout.now }
    ensures sector { sector.new.layout ≡ sector.old.layout }
    ensures same { D.told disk.new ≡ D.told disk.old }
    ensures cause { HasCause (D.faults disk.old) (D.faults disk.new) result.1 }
{
    let mut shelf = Shelf::over(*layout, room);
    let done = scan_shelf(disk, layout, start, found, sector, &mut shelf);
    (shelf.into_room(), done)
}

/// A table that was scanned says what the image shows: its units, and its classes where other units are wanted.
pub fn scanned_is_shown()
    ensures rings { RingsAreShown }
    ensures class { ClassIsShown }
{}
